//! Which keys meet and include which, what begins them, and which texts are keys: the worked pairs and forms.

use std::alloc::Global;
use zs_keys::{KeyError, KeyExpr};

/// How the two texts of a line stand to each other.
enum Relation {
    /// They have a key in common.
    Meet,
    /// They have no key in common.
    Apart,
    /// The left one includes the right one.
    Include,
    /// The left one does not include the right one.
    Exclude,
    /// Before the first wild chunk of the left one stands the right one.
    Begin,
    /// The right one is the canonical form of the left one, or what it would be if it were a key.
    Form,
}

const MEET: &str = "\
a a
a/b a/b
* abc
* *
** a
** a/b/c
** **
a/** a
a/** a/b/c
a/** **/b
a/**/b a/b
a/**/b a/x/y/b
**/b a/**
**/a/b a/a/b
**/a/**/b x/a/y/b
a/* a/x
a/*/b a/x/b
a/* */b
*/b a/*
*/** a
*/*/** a/b
a/**/c/**/e a/b/b/b/c/d/d/d/e
a/**/c/**/e a/c/e
a/**/c/*/e/* a/b/b/b/c/d/d/c/d/e/f
a/*/c/*/e a/b/c/d/e
ab$* abcd
ab$* ab
ab$*d abcd
ab$*cd abxxcxxcd
a/$*b/c/$*d/e a/xb/c/xd/e
x/$*abc x/abc$*
x/a$* x/abc$*
x/a$*d$*e x/ade
x/a$*d$*e x/a$*e
x/a$*d$*e x/a$*c$*e
$*aa aa$*a
$*ab aa$*b
a$*b *
a$* $*b
*/c a$*/c
**/x$* a/xy
@a @a
@a @a/**
@a/** @a/b/c
@a/**/@c/**/e @a/b/b/b/@c/d/d/d/e
a/@v/** a/@v
a/**/@v/b a/x/y/@v/b
**/@v/** @v
**/@v/** a/@v/b
home/*/temp home/kitchen/temp
demo/example/** demo/example/test
demo/**/test demo/example/zenoh/test
a$*é aéé
*/é ü/$*é
é$* $*ü
";

const APART: &str = "\
a b
a a/b
a/b a
* a/b
a/* a
a/* a/b/c
a/*/b a/b
*/** @a
a/*/c/*/e a/c/e
a/*/c/*/e a/b/c/d/x/e
a/**/c/*/e/* a/b/b/b/c/d/d/c/d/d/e/f
a/**/b a/c
**/a/b a/b/a
**/a/**/b b/a
**/b a/**/c
x/* abc
x/abc abc
ab$* a
ab$*cd abxxcxxd
ab$*cd abxxcxxcdx
x/c$* x/abc$*
x/$*d x/$*e
$*aa ab$*b
$*ab aa$*a
a$*b a
aa$*aa aaa
* @a
** @v/a
a/** a/@b
a/* a/@b
$*b @b
@a @ab
@a @a/b
@a @a/*
@a @a$*/**
@a$* @ab
**/xyz$*xyz @a/b/xyzdefxyz
@a/**/c/**/e @a/@b/b/b/c/d/d/d/e
a/**/@v/b a/@w/@v/b
**/@v/** a/b
a/@v/*/@w a/@v/@w
é$* ü$*
";

const INCLUDE: &str = "\
a a
a/b a/b
* a
* *
* a$*
* $*a
** **
** *
** a
** a/b
** a/**/b
** */*
**/a a
**/a b/a
**/a **/a
**/a **/b/a
a/** a
a/** a/b
a/** a/**
a/** a/*
a/** a/b/**/c
a/**/b a/b
a/**/b a/*/b
a/**/b a/**/b
a/**/b a/c/**/b
*/** a
*/** a/**
*/** */*
*/*/** a/b/**
a$* a
a$* ab
a$* a$*
a$* a$*b
a$*b ab
a$*b a$*c$*b
$*a$* bac
a/b$*/** a/b/c
@a @a
@a/** @a
@a/** @a/b/**
@a/* @a/b
**/@a/** @a/b
**/@a/** b/@a
é$* éü
";

const EXCLUDE: &str = "\
a b
a *
a a$*
a **
* **
* a/b
* @a
** @a
** a/@b
**/a a/b
**/a **
a/* a
a/* a/**
a/* a/b/c
a/** **
a/** b
a/** a/@b
a/**/b a/**
a/**/b **/b
*/** **
*/** @a/b
*/*/** a
*/*/** a/**
a$* *
a$* b
a$*b a
a$*b a$*
a$*b ac
aa$*aa aaa
$*a a$*
@a *
@a @ab
@a @a/b
@a$* @ab
@a/** **
@a/* @a/**
@a/* @a/@b
**/@a/** **
**/@a/** a/b
b$*/c */c
a/b/** a/**
é$* ü
";

const BEGIN: &str = "\
a/** a
a/b$*/c a
demo/example/** demo/example
demo/**/test/** demo
";

const FORMS: &str = "\
a a
a/b a/b
* *
** **
$* *
a/$* a/*
$*/a */a
$*$* *
$*$*$* *
a$*$* a$*
$*$*a $*a
a$*$*b a$*b
a$*$*$*b a$*b
a$*$*b$*$*c a$*b$*c
a$*b$*c a$*b$*c
**/** **
**/**/** **
**/* */**
**/*/* */*/**
*/** */**
*/**/* */*/**
**/*/** */**
*/*/* */*/*
a/**/**/b a/**/b
a/**/*/b a/*/**/b
a/**/*/**/b a/*/**/b
a/**/$*/b a/*/**/b
a/$*/** a/*/**
**/a/** **/a/**
**/a/**/* **/a/*/**
**/*/a/**/* */**/a/*/**
a/**/*/$* a/*/*/**
**/$*$*/** */**
@a/$* @a/*
@a$*$*b @a$*b
**/@a/** **/@a/**
*/$*/@a */*/@a
a//b a//b
a/ a/
$ $
a$b a$b
$$*$* $$*
*a *a
# #
?$*$* ?$*
é$*$*ü é$*ü
/ /
/a /a
#x #x
a?b a?b
a* a*
";

static TABLES: [(Relation, &str); 6] = [
    (Relation::Meet, MEET),
    (Relation::Apart, APART),
    (Relation::Include, INCLUDE),
    (Relation::Exclude, EXCLUDE),
    (Relation::Begin, BEGIN),
    (Relation::Form, FORMS),
];

/// Whether that front is what stands before the first wild chunk of a key.
fn begins(key: &KeyExpr<'_>, front: &KeyExpr<'_>) -> bool {
    match key.nonwild_prefix() {
        Some(prefix) => prefix == *front,
        None => false,
    }
}

/// Whether two keys stand so to each other.
fn stand(left: &KeyExpr<'_>, right: &KeyExpr<'_>, relation: &Relation) -> bool {
    match relation {
        Relation::Meet => left.meets(right) && right.meets(left),
        Relation::Apart => !left.meets(right) && !right.meets(left),
        Relation::Include => left.includes(right),
        Relation::Exclude => !left.includes(right),
        Relation::Begin => begins(left, right),
        Relation::Form => false,
    }
}

/// Whether two texts are keys that stand so to each other.
fn are_keys(left: &str, right: &str, relation: &Relation) -> bool {
    let Ok(left) = KeyExpr::new(left) else {
        return false;
    };
    match KeyExpr::new(right) {
        Ok(right) => stand(&left, &right, relation),
        Err(_) => false,
    }
}

/// Whether a text is a canonical key expression.
fn is_key(text: &str) -> bool {
    KeyExpr::new(text).is_ok()
}

/// Whether a text becomes its form, or is refused where the form is no key.
fn becomes(alloc: Global, text: &str, form: &str) -> bool {
    let Ok(text) = String::from_str(alloc, text) else {
        return false;
    };
    match KeyExpr::autocanonize(alloc, text) {
        Ok(key) => key.as_str() == form,
        Err(error) => error == KeyError::BadKeyExpr && !is_key(form),
    }
}

/// Whether a text has that form, and is a key exactly where the form is one and is the text itself.
fn has_form(alloc: Global, text: &str, form: &str) -> bool {
    let own = text == form && is_key(form);
    is_key(text) == own && becomes(alloc, text, form)
}

/// Whether the two texts of a line, with a space between them, stand so to each other.
fn holds(alloc: Global, relation: &Relation, line: &str) -> bool {
    let Some((left, right)) = line.split_once(' ') else {
        return false;
    };
    match relation {
        Relation::Form => has_form(alloc, left, right),
        _ => are_keys(left, right, relation),
    }
}

/// The first line of a table that does not hold.
fn first_wrong(alloc: Global, relation: &Relation, table: &'static str) -> Option<&'static str> {
    for line in table.lines() {
        if !holds(alloc, relation, line) {
            return Some(line);
        }
    }
    None
}

/// Each line of each table holds.
#[test]
fn worked_lines(rt: HostRuntime) {
    for (relation, table) in &TABLES {
        assert_eq!(rt; first_wrong(rt.alloc(), relation, table), None);
    }
}
