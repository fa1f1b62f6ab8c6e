//! Names and lists of classes.
use crate::rows::field;
use std::process::Abort;
use study_material::{Class, ClassFault, needs, order};

static NAMES: &str =
    "KK KQK KRK KBK KNK KPK KQQK KQRK KQBK KQNK KQPK KRRK KRBK KRNK KRPK KBBK KBNK KBPK \
    KNNK KNPK KPPK KQKQ KQKR KQKB KQKN KQKP KRKR KRKB KRKN KRKP KBKB KBKN KBKP KNKN KNKP KPKP";

/// The class of a name.
fn class(rt: &impl Abort, name: &str) -> Class {
    match Class::parse(name) {
        Ok(class) => class,
        Err(_) => panic!(rt; "{name}"),
    }
}

/// Whether there is no class with the name.
fn is_refused(name: &str) -> bool {
    match Class::parse(name) {
        Err(ClassFault::NotAClass) => true,
        _ => false,
    }
}

/// Whether the class is written as this name, and is not one of the excluded classes.
fn has_name(class: Class, name: &str) -> bool {
    class.name() == name && !class.left_out()
}

/// Whether this is the class at the place in the list of all.
fn is_at(class: Class, place: usize) -> bool {
    Class::all().get(place) == Some(&class)
}

#[test]
fn names_of_classes_are_read_and_written(rt: HostRuntime) {
    let mut parsed = 0usize;
    for name in NAMES.split(' ') {
        let class = class(&rt, name);
        assert!(rt; has_name(class, name), "{name}");
        assert!(rt; is_at(class, parsed), "{name}");
        parsed = parsed.saturating_add(1);
    }
    assert!(rt; parsed == 36);
    for text in "KPPKP,KRKQ,,kqk,KQK ".split(',') {
        assert!(rt; is_refused(text), "{text}");
    }
}

/// Whether these are the classes of the names, in this order.
fn are_named(classes: &[Class], names: &str) -> bool {
    let mut names = names.split_ascii_whitespace();
    for class in classes {
        if names.next() != Some(class.name()) {
            return false;
        }
    }
    names.next().is_none()
}

fn order_length(class: Class) -> usize {
    order(class).len()
}

/// Classes, each with the classes that it needs.
const NEEDS: &str = "\
KK,
KPK,KK KQK KRK KBK KNK
KQKP,KQK KRK KBK KNK KPK KQKQ KQKR KQKB KQKN
KPKP,KPK KQKP KRKP KBKP KNKP";

/// Classes with their order.
const ORDERS: &str = "\
KK,KK
KPK,KK KQK KRK KBK KNK KPK";

#[test]
fn classes_come_after_their_needs(rt: HostRuntime) {
    for row in NEEDS.lines() {
        let classes = needs(class(&rt, field(row, 0)));
        assert!(rt; are_named(classes.as_slice(), field(row, 1)), "{row}");
    }
    for row in ORDERS.lines() {
        let classes = order(class(&rt, field(row, 0)));
        assert!(rt; are_named(classes.as_slice(), field(row, 1)), "{row}");
    }
    assert!(rt; order_length(Class::KPKP) == 21);
}
