// Forged sealed bytes are refused, leave no plaintext, and leave the session as it was.
use crate::published::{AAD, FORGED, KEY, MESSAGE, NONCE, SEALED};
use cbeam::plain::Plain;
use cbeam::planar::Planar;
use engine::Engine;
use link::endpoint::Endpoint;
use link::refusal::Refusal;
use std::process::Abort;

// The engine has 16 mixings.
fn forged_then_true<E: Engine + Drop>(rt: &impl Abort, engine: E) {
    let mut endpoint = Endpoint::new(engine);
    let mut output = [7; 20];
    assert_eq!(rt; endpoint.start(KEY, NONCE), Ok(()));
    assert_eq!(rt; endpoint.left(), 13);
    assert_eq!(rt; endpoint.open(AAD, FORGED, &mut output), Err(Refusal::Tag));
    assert_eq!(rt; endpoint.left(), 8);
    assert!(rt; output.starts_with(&[0; 18]));
    assert!(rt; output.ends_with(&[7; 2]));
    assert_eq!(rt; endpoint.open(AAD, SEALED, &mut output), Ok(18));
    assert_eq!(rt; endpoint.left(), 3);
    assert!(rt; output.starts_with(MESSAGE));
    assert!(rt; output.ends_with(&[7; 2]));
}

#[test]
fn forged_then_true_by_both_forms(rt: HostRuntime) {
    forged_then_true(&rt, Plain::new(16));
    forged_then_true(&rt, Planar::new(16));
}
