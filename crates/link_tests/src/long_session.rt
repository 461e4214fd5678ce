// A hundred telegrams between two ends of different kinds, in both directions, some of them damaged on the way.
ghost use Rattle.std.specs.Prelude.{◌≤◌};

use crate::published::{KEY, NONCE};
use cbeam::plain::Plain;
use cbeam::planar::Planar;
use engine::Engine;
use link::endpoint::Endpoint;
use link::refusal::Refusal;
use std::process::Abort;

// Seals a telegram of k bytes of data and 99 - k of message at one end, and opens it at the other. Every third one
// arrives damaged first.
fn transfer<A: Engine, B: Engine>(
    rt: &impl Abort,
    from: &mut Endpoint<A>,
    to: &mut Endpoint<B>,
    k: usize,
)
    requires { k ≤ 99 }
{
    let aad = [k as u8; 99];
    let message = [!(k as u8); 99];
    let n = 99 - k;
    let mut sealed = [0; 107];
    assert_eq!(rt; from.seal(&aad[..k], &message[..n], &mut sealed), Ok(n + 8));
    let mut opened = [0; 99];
    if k % 3 == 0 {
        let mut damaged = sealed;
        damaged[n] ^= 0x20;
        assert_eq!(rt;
            to.open(&aad[..k], &damaged[..n + 8], &mut opened),
            Err(Refusal::Tag)
        );
    }
    assert_eq!(rt; to.open(&aad[..k], &sealed[..n + 8], &mut opened), Ok(n));
    assert!(rt; opened[..n] == message[..n]);
}

#[test]
fn a_hundred_telegrams(rt: HostRuntime) {
    let mut tool = Endpoint::new(Plain::new(10_000));
    let mut drive = Endpoint::new(Planar::new(10_000));
    assert_eq!(rt; tool.start(KEY, NONCE), Ok(()));
    assert_eq!(rt; drive.start(KEY, NONCE), Ok(()));
    for k in 0..100 {
        if k % 4 < 2 {
            transfer(&rt, &mut tool, &mut drive, k);
        } else {
            transfer(&rt, &mut drive, &mut tool, k);
        }
    }
    assert_eq!(rt; tool.close(), Ok(()));
    assert_eq!(rt; drive.close(), Ok(()));
}
