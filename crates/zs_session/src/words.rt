//! The words that a run is started with: none, or `drive` or `link` and then settings.

ghost use Rattle.std.specs.Prelude.{◌≡◌, ◌≤◌, map, IfOk, IfSome, IsSome, IsTrue, OnErr, option_map, true, chars};
ghost use Rattle.std.specs.List.{list_all};
ghost use Rattle.std.specs.String.{string_bytes};
ghost use Rattle.zs_keys.specs.Key.{undeclared};
ghost use Rattle.zs_core.specs.Settings.{default_settings, is_valid};
ghost use Rattle.zs_parts.specs.Hexadecimal.{hex_of};
ghost use Rattle.zs_script.specs.Plain.{is_plain, is_plain_text};
ghost use Rattle.zs_parts.specs.Symbols.{number_of, after_prefix};
ghost use Rattle.zs_session.specs.Words.{gives_start, gives_limit, gives_number, gives_aggregate, is_setting, is_aggregate, are_aggregates, are_settings, values, setting, given, settings_of, found, is_apart, is_link, link_of};

use std::alloc::{AllocError, Global};
use zs_core::{KeyList, Settings};
use zs_keys::KeyExpr;
use zs_script::{after_prefix, parse_hex, parse_number};

/// The greatest number that an entity, a get, or a line's length, is told as.
const U32_MAX: u64 = u32::MAX as u64;

/// The greatest number that a key is told as.
const U16_MAX: u64 = u16::MAX as u64;

/// The settings that the words of a run give: the default ones without a word, else those behind the word `drive`. There
/// are none where a word has no place among them, and none where the settings are not valid. Only settings that there are
/// can want memory.
pub fn settings_of(alloc: Global, words: &[String]) -> Result<Option<Settings>, AllocError>
    ensures ok { IfOk result (λ found. found ≡ settings_of (map string_bytes words.now)) }
    ensures valid { IfOk result (λ found. IfSome found (λ s. IsTrue (is_valid s))) }
    ensures err { OnErr result (IsSome (settings_of (map string_bytes words.now))) }
{
    let [mode, rest @ ..] = words else {
        return Ok(Some(Settings::default()));
    };
    if mode.as_str() != "drive" || !are_settings(rest) {
        return Ok(None);
    }
    let Some(mut settings) = given(rest) else {
        return Ok(None);
    };
    if !settings.is_valid() {
        return Ok(None);
    }
    settings.aggregated_subscribers = aggregates(alloc, rest, "aggsub=")?;
    settings.aggregated_publishers = aggregates(alloc, rest, "aggpub=")?;
    Ok(Some(settings))
}

/// Whether the words are those of linked sessions: the first is `link`.
pub(crate) fn is_link(words: &[String]) -> bool
    ensures { result ≡ is_link (map string_bytes words.now) }
{
    match words {
        [mode, ..] => mode.as_str() == "link",
        [] => false,
    }
}

/// The settings of the first of two linked sessions that the words of a run give: those behind the word `link`. There are
/// none where a word has no place among them, where the settings are not valid, or where they have the second session's
/// identifier or tag.
pub(crate) fn link_of(alloc: Global, words: &[String]) -> Result<Option<Settings>, AllocError>
    ensures ok { IfOk result (λ found. found ≡ link_of (map string_bytes words.now)) }
    ensures valid { IfOk result (λ found. IfSome found (λ s. IsTrue (is_valid s))) }
    ensures err { OnErr result (IsSome (link_of (map string_bytes words.now))) }
{
    let [mode, rest @ ..] = words else {
        return Ok(None);
    };
    if mode.as_str() != "link" || !are_settings(rest) {
        return Ok(None);
    }
    let Some(mut settings) = given(rest) else {
        return Ok(None);
    };
    if !settings.is_valid() || !is_apart(&settings) {
        return Ok(None);
    }
    settings.aggregated_subscribers = aggregates(alloc, rest, "aggsub=")?;
    settings.aggregated_publishers = aggregates(alloc, rest, "aggpub=")?;
    Ok(Some(settings))
}

/// Whether the second of two linked sessions differs from these settings.
fn is_apart(settings: &Settings) -> bool
    ensures { result ≡ is_apart settings.now }
{
    settings.zid != 2 && settings.tag != 2
}

/// Whether each word begins with the name of a setting and `=`, and each aggregate is one.
fn are_settings(words: &[String]) -> bool
    ensures { result ≡ are_settings (map string_bytes words.now) }
{
    are_named(words) && are_aggregates(words, "aggsub=") && are_aggregates(words, "aggpub=")
}

/// Whether each word begins with the name of a setting and `=`.
fn are_named(words: &[String]) -> bool
    ensures { result ≡ list_all is_setting (map string_bytes words.now) }
{
    words.iter().all(|word| is_setting(word.as_str()))
}

/// Whether each word that begins with this name goes on with an aggregate.
fn are_aggregates(words: &[String], name: &str) -> bool
    ensures { result ≡ are_aggregates name.now (map string_bytes words.now) }
{
    let mut words = words;
    'words: while let Some((text, rest)) = value_in(words, name) {
        if !is_aggregate(text) {
            return false;
        }
        words = rest;
    }
    true
}

/// Whether a text is a key expression that can stand in a field of a line.
fn is_aggregate(text: &str) -> bool
    ensures { result ≡ is_aggregate text.now }
{
    is_printable(text) && KeyExpr::new(text).is_ok()
}

/// Whether a text has no tab and no line feed, as it is printed.
fn is_printable(text: &str) -> bool
    ensures { result ≡ is_plain_text (chars text.now) }
{
    is_plain(text)
}

/// Whether a text's bytes have no tab and no line feed.
fn is_plain(text: &str) -> bool
    ensures { result ≡ is_plain text.now }
{
    text.as_bytes()
        .iter()
        .all(|byte| *byte != b'\t' && *byte != b'\n')
}

/// The keys of the words that begin with this name, in order.
fn aggregates(alloc: Global, words: &[String], name: &str) -> Result<KeyList, AllocError>
    requires { are_aggregates name.now (map string_bytes words.now) ≡ true }
    ensures { IfOk result (λ keys. keys ≡ map undeclared (values name.now (map string_bytes words.now))) }
{
    let mut keys = Vec::new(alloc);
    let mut words = words;
    'words: while let Some((text, rest)) = value_in(words, name) {
        keys.push(key_of(alloc, text)?)?;
        words = rest;
    }
    Ok(KeyList::from_vec(keys))
}

/// Whether a word begins with the name of a setting and `=`.
fn is_setting(word: &str) -> bool
    ensures { result ≡ is_setting word.now }
{
    gives_number(word) || gives_aggregate(word)
}

/// Whether a word begins with the name of a setting that is a number, and `=`.
fn gives_number(word: &str) -> bool
    ensures { result ≡ gives_number word.now }
{
    gives_start(word) || gives_limit(word)
}

/// Whether a word begins with the name of an identifier, a tag or the first number of a kind, and `=`.
fn gives_start(word: &str) -> bool
    ensures { result ≡ gives_start word.now }
{
    after_prefix(word, "zid=").is_some()
        || after_prefix(word, "tag=").is_some()
        || after_prefix(word, "entity=").is_some()
        || after_prefix(word, "key=").is_some()
        || after_prefix(word, "query=").is_some()
}

/// Whether a word begins with the name of a limit and `=`: of how long a get or a line is, or of how many reads.
fn gives_limit(word: &str) -> bool
    ensures { result ≡ gives_limit word.now }
{
    after_prefix(word, "timeout=").is_some()
        || after_prefix(word, "line=").is_some()
        || after_prefix(word, "turns=").is_some()
}

/// Whether a word begins with the name of an aggregate, of subscribers or of publishers, and `=`.
fn gives_aggregate(word: &str) -> bool
    ensures { result ≡ gives_aggregate word.now }
{
    after_prefix(word, "aggsub=").is_some() || after_prefix(word, "aggpub=").is_some()
}

/// The settings that are numbers.
#[derive(Clone, Copy)]
struct Numbers {
    zid: u128,
    tag: u64,
    entity_start: u32,
    key_start: u16,
    query_start: u32,
    default_timeout: u64,
    line_max: u32,
    turns: u64,
}

/// Those that hold where no word gives others.
fn default_numbers() -> Numbers
    ensures { result ≡ record {
      zid = default_settings.zid;
      tag = default_settings.tag;
      entity_start = default_settings.entity_start;
      key_start = default_settings.key_start;
      query_start = default_settings.query_start;
      default_timeout = default_settings.default_timeout;
      line_max = default_settings.line_max;
      turns = default_settings.turns;
    } }
{
    let Settings {
        zid,
        tag,
        entity_start,
        key_start,
        query_start,
        default_timeout,
        line_max,
        turns,
        ..
    } = Settings::default();
    Numbers {
        zid,
        tag,
        entity_start,
        key_start,
        query_start,
        default_timeout,
        line_max,
        turns,
    }
}

/// The settings that the words give but for their aggregates, valid or not.
fn given(words: &[String]) -> Option<Settings>
    ensures { result ≡ given (map string_bytes words.now) }
{
    let default = default_numbers();
    let zid = identifier(words, "zid=", default.zid)?;
    let tag = number(words, "tag=", u64::MAX, default.tag)?;
    let entity_start = number(words, "entity=", U32_MAX, u64::from(default.entity_start))?;
    let key_start = number(words, "key=", U16_MAX, u64::from(default.key_start))?;
    let query_start = number(words, "query=", U32_MAX, u64::from(default.query_start))?;
    let default_timeout = number(words, "timeout=", u64::MAX, default.default_timeout)?;
    let line_max = number(words, "line=", U32_MAX, u64::from(default.line_max))?;
    let turns = number(words, "turns=", u64::MAX, default.turns)?;
    Some(Settings {
        zid,
        tag,
        entity_start: entity_start as u32,
        key_start: key_start as u16,
        query_start: query_start as u32,
        aggregated_subscribers: KeyList::new(),
        aggregated_publishers: KeyList::new(),
        default_timeout,
        line_max: line_max as u32,
        turns,
    })
}

/// The setting of this name as a hexadecimal number, or the default where no word gives it.
fn identifier(words: &[String], name: &str, default: u128) -> Option<u128>
    ensures { result ≡ setting hex_of default (values name.now (map string_bytes words.now)) }
{
    let Some((value, rest)) = value_in(words, name) else {
        return Some(default);
    };
    if value_in(rest, name).is_some() {
        return None;
    }
    parse_hex(value.as_bytes())
}

/// The setting of this name as a decimal number of at most `max`, or the default where no word gives it.
fn number(words: &[String], name: &str, max: u64, default: u64) -> Option<u64>
    requires { default ≤ max }
    ensures given { result ≡ setting (number_of max) default (values name.now (map string_bytes words.now)) }
    ensures small { IfSome result (λ n. n ≤ max) }
{
    let Some((value, rest)) = value_in(words, name) else {
        return Some(default);
    };
    if value_in(rest, name).is_some() {
        return None;
    }
    parse_number(max, value.as_bytes())
}

/// What stands behind this name in the first word that begins with it, and the words behind that one.
pub(crate) fn value_in<'a>(words: &'a [String], name: &str) -> Option<(&'a str, &'a [String])>
    ensures { values name.now (map string_bytes words.now) ≡ found name.now (option_map (λ found. (found.0.now, map string_bytes found.1.now)) result) }
{
    let mut words = words;
    'words: while let [word, rest @ ..] = words {
        if let Some(value) = after_prefix(word.as_str(), name) {
            return Some((value, rest));
        }
        words = rest;
    }
    None
}

/// A key of its own with this text.
fn key_of(alloc: Global, text: &str) -> Result<KeyExpr<'static>, AllocError>
    requires { is_aggregate text.now ≡ true }
    ensures { IfOk result (λ key. key ≡ undeclared text.now) }
{
    let Ok(key) = KeyExpr::new(text) else {
        unreachable!()
    };
    match key.into_owned(alloc) {
        Ok(key) => Ok(key),
        Err(_) => Err(AllocError),
    }
}
