//! Publications, made here or come in.

ghost use Rattle.std.specs.Prelude.{◌≡◌, ◌⊎◌, ◌++◌, ◌<◌, [], Some, None, true, IfOk, OnOk};
ghost use Rattle.zs_keys.specs.Key.{undeclared};
ghost use Rattle.zs_subscriptions.specs.Contents.{text_meant, IsByNumber};
ghost use Rattle.zs_subscriptions.specs.Recipients.{has_session, has_network, recipients};
ghost use Rattle.zs_events.specs.Kinds.{OwnKey, WireKey, OwnContent, is_nothing, local_content};
ghost use Rattle.zs_events.specs.Updates.{body_of};
ghost use Rattle.zs_world.specs.World.{World, tables_of};
ghost use Rattle.zs_world.specs.Keys.{key_of, wire_of, text_of, is_number, is_number_alone};
ghost use Rattle.zs_announcing.specs.Named.{named_by};
ghost use Rattle.zs_model.specs.Sends.{declaration_of, prefix_declaration, push_sends};
ghost use Rattle.zs_model.specs.Publishers.{pub_at};
ghost use Rattle.zs_model.specs.Effects.{publication_on, hands_for};
ghost use Rattle.zs_model.specs.Publications.{reached};
ghost use Rattle.zs_world.specs.Decisions.{own_keys_at, publication_effects, publication_decision};

use crate::keys::{KeyName, resolve, resolve_wire};
use crate::queriers::queried;
use crate::wires::{declared_by, wire_form};
use std::alloc::AllocError;
use std::marker::Brand;
use std::sync::ledger::{Blank, Ledger};
use zs_events::{Content, Effects, KeyArg, PublicationQuality, Shared, Update};
use zs_keys::{Declared, KeyExpr, Steps};
use zs_making::content::{local_content, plain_body, sample_of};
use zs_making::keys::is_nothing;
use zs_making::publications::{hand_to_all, ids_by, prefix_declaration};
use zs_making::wires::{push_of, push_send};
use zs_model::{has_network, has_session};
use zs_sample::Locality;
use zs_tables::KeyRef;
use zs_wire::{Mapping, WireExpr};
use zs_world::{Change, Decision, SessionTables};

/// What the application puts or deletes on a key.
pub fn decide_publish(
    world: &SessionTables,
    destination: Locality,
    key: &KeyArg,
    update: &Update,
    quality: PublicationQuality,
) -> Result<Decision, AllocError>
    ensures { IfOk result (λ made.
        made ≡ publication_decision world.now (OwnKey key.now) (local_content destination (body_of [] update.now) quality)) }
{
    let body = plain_body(world.alloc, update)?;
    decide_own(world, key, local_content(destination, body, quality))
}

/// A publication that the application makes on a key.
fn decide_own(world: &SessionTables, key: &KeyArg, content: Content) -> Result<Decision, AllocError>
    ensures { IfOk result (λ made. made ≡ publication_decision world.now (OwnKey key.now) content) }
{
    let resolved = match resolve(world, key)? {
        Ok(key) => key,
        Err(refusal) => return Ok(Decision::refused(world.alloc, refusal)),
    };
    let effects = publish(world, KeyName::Own(key), resolved, content)?;
    Ok(Decision::of(effects, Change::Nothing))
}

/// A publication that comes in.
pub fn decide_incoming(
    world: &SessionTables,
    wire: &WireExpr,
    content: Content,
) -> Result<Decision, AllocError>
    ensures { IfOk result (λ made. made ≡ publication_decision world.now (WireKey wire.now) content) }
{
    let resolved = match resolve_wire(world, wire)? {
        Ok(key) => key,
        Err(refusal) => return Ok(Decision::refused(world.alloc, refusal)),
    };
    let effects = publish(world, KeyName::Wire(wire), resolved, content)?;
    Ok(Decision::of(effects, Change::Nothing))
}

/// What a publication on that key brings about: its message, and one sample for each subscriber that is allowed
/// it. `key` says how they are found.
pub fn publish(
    world: &SessionTables,
    key: KeyName<'_>,
    resolved: KeyExpr<'_>,
    content: Content,
) -> Result<Effects, AllocError>
    requires meant { text_of world.now (named_by key) ≡ Some resolved.text }
    requires plain { resolved ≡ undeclared resolved.text }
    ensures { IfOk result (λ effects.
        effects ≡ publication_effects world.now (named_by key.entry) (Some resolved.entry.text) content) }
{
    let mut effects = sends_of(world, key, resolved.as_str(), &content)?;
    hand_over(world, &mut effects, key, resolved, content)?;
    Ok(effects)
}

/// The message of a publication, where it goes to the network.
fn sends_of(
    world: &SessionTables,
    key: KeyName<'_>,
    text: &str,
    content: &Content,
) -> Result<Effects, AllocError>
    ensures { IfOk result (λ effects.
        effects ≡ push_sends (own_keys_at world.now) text.now (declaration_of (own_keys_at world.now) text.now (named_by key.entry)) content.now) }
{
    let mut effects = Effects::new(world.alloc);
    if content.local && has_network(content.destination) {
        let declared = declaration_of(world, key, text)?;
        let wire = wire_form(world, text, declared)?;
        let message = push_of(world.alloc, wire, content)?;
        push_send(world.alloc, &mut effects, message)?;
    }
    Ok(effects)
}

/// The declaration of a publisher's key, where it was named by a declared one.
fn published(world: &SessionTables, id: u32) -> Option<Declared>
    ensures { result ≡ prefix_declaration world.now.settings.tag (pub_at id world.now.entities.pubs) }
{
    match world.publishers.get(id) {
        Some(row) => prefix_declaration(world.settings.tag, row),
        None => None,
    }
}

/// The declaration of a key that stands for that text: one from the network has none.
pub fn declaration_of(
    world: &SessionTables,
    key: KeyName<'_>,
    text: &str,
) -> Result<Option<Declared>, AllocError>
    ensures { IfOk result (λ declared. declared ≡ declaration_of (own_keys_at world.now) text.now (named_by key.entry)) }
{
    match key {
        KeyName::Own(key) => declared_by(world, key, text),
        KeyName::Publisher(id) => Ok(published(world, id)),
        KeyName::Querier(id) => Ok(queried(world, id)),
        KeyName::Wire(_) => Ok(None),
    }
}

/// Adds one sample for each subscriber that is allowed the publication.
fn hand_over(
    world: &SessionTables,
    effects: &mut Effects,
    key: KeyName<'_>,
    resolved: KeyExpr<'_>,
    content: Content,
) -> Result<(), AllocError>
    requires meant { text_of world.now (named_by key) ≡ Some resolved.text }
    requires plain { resolved ≡ undeclared resolved.text }
    ensures { OnOk result (effects.new
        ≡ effects.old ++ hands_for world.now.entities.subs (publication_on (Some resolved.entry.text) (OwnContent content))) }
{
    let local = content.local;
    let to = content.destination;
    let ids = recipients_uncounted::<Brand>(world, Blank::new(1), local, to, key, &resolved)?;
    if ids.is_empty() {
        return Ok(());
    }
    let sample = sample_of(world.alloc, resolved, content)?;
    let shared = Shared::new(world.alloc, sample)?;
    hand_to_all(effects, &ids, shared)
}

/// `recipients` with a counter of its own, which nobody reads.
fn recipients_uncounted<L: Ledger>(
    world: &SessionTables,
    blank: Blank,
    local: bool,
    destination: Locality,
    key: KeyName<'_>,
    resolved: &KeyExpr<'_>,
) -> Result<Vec<u32>, AllocError>
    requires name { blank.name ≡ L.name }
    requires parts { blank.parts ≡ L.parts }
    requires some { 0 < blank.parts }
    requires meant { text_of world.now (named_by key) ≡ Some resolved.now.text }
    ensures { IfOk result (λ ids. ids.items ≡ reached local destination resolved.now.text world.now.entities.subs) }
{
    let mut steps = Steps::<L>::new(blank);
    recipients(world, local, destination, key, resolved, &mut steps)
}

/// The ascending numbers of the subscribers that are allowed a publication. They are found by the list of the key's
/// number, where the key is a number by itself: then no step is counted.
fn recipients<L: Ledger>(
    world: &SessionTables,
    local: bool,
    destination: Locality,
    key: KeyName<'_>,
    resolved: &KeyExpr<'_>,
    steps: &mut Steps<L>,
) -> Result<Vec<u32>, AllocError>
    requires { text_of world.now (named_by key) ≡ Some resolved.now.text }
    ensures ids { IfOk result (λ ids. ids.items ≡ reached local destination resolved.now.text world.now.entities.subs) }
    ensures uncounted { is_number_alone (named_by key.entry) ≡ true → steps.new ≡ steps.old }
{
    if local && !has_session(destination) {
        return Ok(Vec::new(world.alloc));
    }
    ids_by(
        world.alloc,
        &world.tables,
        local,
        key_ref(key, resolved),
        resolved,
        steps,
    )
}

/// How the subscribers of a key are found: by its number, where the key is a number by itself.
fn key_ref<'a>(key: KeyName<'a>, resolved: &'a KeyExpr<'a>) -> KeyRef<'a>
    ensures by_number { is_number_alone (named_by key.entry) ≡ true → IsByNumber result }
    ensures meant { (w : World) → text_of w (named_by key.entry) ≡ Some resolved.now.text → text_meant result (tables_of w) ≡ Some resolved.now.text }
{
    match key {
        KeyName::Own(key) => own_ref(key, resolved),
        KeyName::Publisher(_) => KeyRef::Text(resolved),
        KeyName::Querier(_) => KeyRef::Text(resolved),
        KeyName::Wire(wire) => wire_ref(wire, resolved),
    }
}

/// How the subscribers of an application's key are found: by its number, where it is a declared one by itself.
fn own_ref<'a>(key: &KeyArg, resolved: &'a KeyExpr<'a>) -> KeyRef<'a>
    ensures by_number { is_number key.now ≡ true → IsByNumber result }
    ensures meant { (w : World) → key_of w key.now ≡ Some resolved.now.text → text_meant result (tables_of w) ≡ Some resolved.now.text }
{
    match key {
        KeyArg::Number { number, suffix } if is_nothing(suffix) => {
            KeyRef::Number(Mapping::Receiver, *number)
        }
        _ => KeyRef::Text(resolved),
    }
}

/// How the subscribers of a wire expression's key are found: by its number, where it is a declared one by itself.
fn wire_ref<'a>(wire: &WireExpr, resolved: &'a KeyExpr<'a>) -> KeyRef<'a>
    ensures by_number { is_nothing wire.now.suffix ≡ true → (wire.now.scope ≡ 0) ⊎ IsByNumber result }
    ensures meant { (w : World) → wire_of w wire.now ≡ Some resolved.now.text → text_meant result (tables_of w) ≡ Some resolved.now.text }
{
    if wire.scope == 0 {
        return KeyRef::Text(resolved);
    }
    if !is_nothing(&wire.suffix) {
        return KeyRef::Text(resolved);
    }
    KeyRef::Number(wire.mapping, wire.scope)
}
