// Guides in both forms: the numbers of the forms, and one tree told from either.
use crate::expect::{ends, faults, tells};
use guide::written::{Form, UnknownForm, Written};
use guide::{Defect, Event};
use std::process::Abort;

// A rule node of rule 7 over the byte 9.
const EVENTS: [Event; 3] = [Event::Enter(7), Event::Byte(9), Event::Leave];

fn tells_the_tree(rt: &impl Abort, form: Form, bytes: &[u8]) {
    let mut guide = Written::new(form, bytes);
    tells(rt, &mut guide, &EVENTS);
    ends(rt, &mut guide);
}

#[test]
fn the_numbers_of_the_forms(rt: HostRuntime) {
    assert!(rt; Form::try_from(0) == Err(UnknownForm(0)));
    assert!(rt; Form::try_from(1) == Ok(Form::Listing));
    assert!(rt; Form::try_from(2) == Ok(Form::Links));
    assert!(rt; Form::try_from(3) == Err(UnknownForm(3)));
    assert!(rt; Form::try_from(255) == Err(UnknownForm(255)));
}

#[test]
fn one_tree_in_both_forms(rt: HostRuntime) {
    tells_the_tree(&rt, Form::Listing, b"(7\n=09\n)\n");
    tells_the_tree(
        &rt,
        Form::Links,
        &[1, 0, 0, 7, 0, 1, 0, 0, 2, 0, 0, 9, 0, 0, 0, 0],
    );
}

// Each form's bytes are no guide in the other form.
#[test]
fn bytes_of_the_other_form(rt: HostRuntime) {
    let mut guide = Written::new(Form::Links, b"(7\n=09\n)\n");
    faults(&rt, &mut guide, Defect::TableLength, 0);
    let mut guide = Written::new(Form::Listing, &[1, 0, 0, 7, 0, 0, 0, 0]);
    faults(&rt, &mut guide, Defect::BadLine, 0);
}
