// The published telegram by the one-shot calls.
use crate::published::{AAD, FORGED, KEY, MESSAGE, NONCE, SEALED};
use cbeam128r1::form::Form;
use cbeam128r1::one_shot::{decrypt, encrypt};
use cbeam128r1::vectors;
use link::refusal::Refusal;
use std::process::Abort;

fn published_by(rt: &impl Abort, form: Form) {
    let mut sealed = [7; 28];
    assert_eq!(rt;
        encrypt(form, KEY, NONCE, AAD, MESSAGE, &mut sealed),
        Ok(26)
    );
    assert!(rt; sealed.starts_with(SEALED));
    assert!(rt; sealed.ends_with(&[7; 2]));
    let mut message = [7; 20];
    assert_eq!(rt;
        decrypt(form, KEY, NONCE, AAD, FORGED, &mut message),
        Err(Refusal::Tag)
    );
    assert!(rt; message.starts_with(&[0; 18]));
    assert_eq!(rt;
        decrypt(form, KEY, NONCE, AAD, SEALED, &mut message),
        Ok(18)
    );
    assert!(rt; message.starts_with(MESSAGE));
    assert!(rt; message.ends_with(&[7; 2]));
    assert_eq!(rt;
        encrypt(form, AAD, NONCE, AAD, MESSAGE, &mut sealed),
        Err(Refusal::KeyLength)
    );
    assert_eq!(rt;
        decrypt(form, KEY, KEY, AAD, SEALED, &mut message),
        Err(Refusal::NonceLength)
    );
}

#[test]
fn published_by_both_forms(rt: HostRuntime) {
    published_by(&rt, Form::Plain);
    published_by(&rt, Form::Planar);
}

#[test]
fn worked_examples(rt: HostRuntime) {
    assert_eq!(rt; vectors::proved(), 14);
}
