//! The liveliness tokens that a side holds.

ghost use Rattle.std.specs.Prelude.{◌≡◌, [], ◌∷◌, ◌++◌, OnOk, OnErr, encode_utf8_all};
ghost use Rattle.std.specs.List.{find};
ghost use Rattle.std.specs.Option.{option_copied};
ghost use Rattle.zs_group_lines.specs.Tokens.{without, is_on, oldest, token_held, token_ended, held_after, raised_in, with_held};
ghost use Rattle.zs_members.specs.Names.{name_in};

use std::alloc::{AllocError, Global};
use std::marker::Model;
use zs_events::{Answer, EntityKind, Event, KeyArg};
use zs_members::{View, name_in};
use zs_sample::Text;

/// A token: its key, and the number under which its session declared it.
#[derive(Drop)]
pub struct Token {
    pub key: Text,
    pub id: u32,
}

/// The tokens that a side holds, the oldest first.
#[derive(Drop)]
pub struct Tokens {
    alloc: Global,
    held: Vec<Token>,
}

impl Model for Tokens {
    ghost use Rattle.std.specs.Prelude.{List};
    ghost use Rattle.zs_group_lines.specs.declared.tokens.Token.{Token};

    ghost Value = { List Token };

    ghost view = { λ t. t.held.items };
}

impl Tokens {
    /// It holds none.
    pub fn new(alloc: Global) -> Tokens
        ensures { result ≡ [] }
    {
        Tokens {
            alloc,
            held: Vec::new(alloc),
        }
    }

    /// What it holds behind an event that was answered so: an accepted token is one more, one that was undeclared is gone.
    ///
    /// # Errors
    ///
    /// Want of memory alone; nothing has changed then.
    pub fn note(&mut self, event: &Event, answer: Answer) -> Result<(), AllocError>
        ensures ok { OnOk result (self.new ≡ held_after event.now answer self.old) }
        ensures err { OnErr result (self.new ≡ self.old) }
    {
        match event {
            Event::Token { key } => self.note_token(key, answer),
            Event::Undeclare { kind, id } => {
                self.note_end(*kind, *id, answer);
                Ok(())
            }
            _ => Ok(()),
        }
    }

    /// Adds a token whose declaration was answered a number, if its key was given as a text. Else nothing changes.
    fn note_token(&mut self, key: &KeyArg, answer: Answer) -> Result<(), AllocError>
        ensures ok { OnOk result (self.new ≡ token_held key.now answer self.old) }
        ensures err { OnErr result (self.new ≡ self.old) }
    {
        let KeyArg::Text(text) = key else {
            return Ok(());
        };
        let Answer::Ok(Some(id)) = answer else {
            return Ok(());
        };
        let key = text.try_clone(self.alloc)?;
        self.add(Token { key, id })
    }

    /// Takes a token out whose undeclaration was accepted. Ends of other entities change nothing.
    fn note_end(&mut self, kind: EntityKind, id: u32, answer: Answer)
        ensures { self.new ≡ token_ended kind id answer self.old }
    {
        match (kind, answer) {
            (EntityKind::Token, Answer::Ok(_)) => self.end(id),
            _ => {}
        }
    }

    /// Puts a token behind the others, as the newest one.
    fn add(&mut self, token: Token) -> Result<(), AllocError>
        ensures ok { OnOk result (self.new ≡ self.old ++ token ∷ []) }
        ensures err { OnErr result (self.new ≡ self.old) }
    {
        match self.held.push(token) {
            Ok(()) => Ok(()),
            Err(failed) => {
                drop(failed);
                Err(AllocError)
            }
        }
    }

    /// Takes out the token of that number, if it is held.
    fn end(&mut self, id: u32)
        ensures { self.new ≡ without id self.old }
    {
        leave_others(&mut self.held, id);
    }

    /// The number of the oldest one on a key, if it holds one.
    pub fn oldest(&self, key: &str) -> Option<u32>
        ensures { result ≡ oldest key.now self.now }
    {
        match first_on(self.held.as_slice(), key) {
            Some(token) => Some(token.id),
            None => None,
        }
    }

    /// Counts each of them in a view.
    ///
    /// # Errors
    ///
    /// Want of memory alone. Then it may have counted some of them.
    pub fn count_in(&self, view: &mut View) -> Result<(), AllocError>
        ensures { OnOk result (view.new ≡ with_held self.now view.old) }
    {
        let held = self.held.as_slice();
        for token in held {
            count_token(token, view)?;
        }
        Ok(())
    }
}

/// Keeps all tokens but the one of that number.
fn leave_others(tokens: &mut Vec<Token>, id: u32)
    ensures { tokens.new.items ≡ without id tokens.old.items }
{
    tokens.retain(|token| token.id != id);
}

/// The first of these tokens that is on a key.
fn first_on<'a>(tokens: &'a [Token], key: &str) -> Option<&'a Token>
    ensures { option_copied result ≡ find (λ token. is_on key.now token) tokens.now }
{
    tokens.iter().find(|token| token.key.as_str() == key)
}

/// Counts a token in a view under the name that its key stands for, if it stands for one.
fn count_token(token: &Token, view: &mut View) -> Result<(), AllocError>
    ensures { OnOk result (view.new ≡ raised_in (name_in (encode_utf8_all token.now.key)) view.old) }
{
    match name_in(token.key.as_str()) {
        Some(name) => view.raise(name),
        None => Ok(()),
    }
}
