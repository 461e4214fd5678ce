// The greatest and least lengths that are accepted, and the next ones, which are refused.
use crate::published::{AAD, KEY, MESSAGE, NONCE, SEALED};
use cbeam::planar::Planar;
use engine::Engine;
use engine::shortfall::Shortfall;
use link::endpoint::Endpoint;
use link::refusal::Refusal;
use std::process::Abort;
use std::test::Fail;

// Of 65,536 bytes, all but the last can be data or a message.
fn one_byte_too_many(rt: &impl Abort, bytes: &[u8], longest: &[u8], output: &mut [u8]) {
    let mut endpoint = Endpoint::new(Planar::new(20_000));
    assert_eq!(rt; endpoint.start(KEY, NONCE), Ok(()));
    assert_eq!(rt;
        endpoint.seal(bytes, MESSAGE, output),
        Err(Refusal::DataLength)
    );
    assert_eq!(rt;
        endpoint.open(bytes, SEALED, output),
        Err(Refusal::DataLength)
    );
    assert_eq!(rt;
        endpoint.seal(AAD, bytes, output),
        Err(Refusal::MessageLength)
    );
    assert_eq!(rt; endpoint.seal(longest, longest, output), Ok(65_543));
    assert_eq!(rt; endpoint.left(), 20_000 - 3 - 16_385);
}

#[test]
fn data_and_message(rt: HostRuntime) -> Result<(), Fail> {
    let heap = rt.alloc();
    let bytes = vec![in heap; 0; 65_536]?;
    let longest = vec![in heap; 0; 65_535]?;
    let mut output = vec![in heap; 0; 65_543]?;
    one_byte_too_many(&rt, &bytes, &longest, &mut output);
    Ok(())
}

// Of 65,544 bytes, all but the last can be sealed bytes.
fn one_sealed_byte_too_many(rt: &impl Abort, bytes: &[u8], longest: &[u8], output: &mut [u8]) {
    let mut endpoint = Endpoint::new(Planar::new(20_000));
    assert_eq!(rt; endpoint.start(KEY, NONCE), Ok(()));
    assert_eq!(rt;
        endpoint.open(AAD, bytes, output),
        Err(Refusal::MessageLength)
    );
    assert_eq!(rt; endpoint.open(AAD, longest, output), Err(Refusal::Tag));
    assert_eq!(rt; endpoint.left(), 20_000 - 3 - 8_194);
}

#[test]
fn longest_sealed_bytes(rt: HostRuntime) -> Result<(), Fail> {
    let heap = rt.alloc();
    let bytes = vec![in heap; 0; 65_544]?;
    let longest = vec![in heap; 0; 65_543]?;
    let mut output = vec![in heap; 0; 65_535]?;
    one_sealed_byte_too_many(&rt, &bytes, &longest, &mut output);
    Ok(())
}

#[test]
fn sealed_bytes_and_output(rt: HostRuntime) {
    let mut output = [7; 26];
    let mut endpoint = Endpoint::new(Planar::new(100));
    assert_eq!(rt; endpoint.start(KEY, NONCE), Ok(()));
    assert_eq!(rt;
        endpoint.open(AAD, &SEALED[..7], &mut output),
        Err(Refusal::TagMissing)
    );
    assert_eq!(rt;
        endpoint.open(AAD, &SEALED[..8], &mut []),
        Err(Refusal::Tag)
    );
    assert_eq!(rt;
        endpoint.open(AAD, SEALED, &mut output[..17]),
        Err(Refusal::OutputLength)
    );
    assert_eq!(rt;
        endpoint.seal(AAD, MESSAGE, &mut output[..25]),
        Err(Refusal::OutputLength)
    );
    assert!(rt; output == [7; 26]);
    assert_eq!(rt; endpoint.left(), 100 - 3 - 3);
    assert_eq!(rt; endpoint.seal(AAD, MESSAGE, &mut output), Ok(26));
    assert!(rt; output == *SEALED);
}

#[test]
fn keys_nonces_and_phases(rt: HostRuntime) {
    let mut endpoint = Endpoint::new(Planar::new(3));
    assert_eq!(rt; endpoint.close(), Err(Refusal::NotLive));
    assert_eq!(rt; endpoint.seal(AAD, MESSAGE, &mut []), Err(Refusal::NotLive));
    assert_eq!(rt; endpoint.open(AAD, SEALED, &mut []), Err(Refusal::NotLive));
    assert_eq!(rt; endpoint.start(AAD, AAD), Err(Refusal::KeyLength));
    assert_eq!(rt; endpoint.start(KEY, AAD), Err(Refusal::NonceLength));
    assert_eq!(rt; endpoint.start(KEY, NONCE), Ok(()));
    assert_eq!(rt; endpoint.start(AAD, AAD), Err(Refusal::NotIdle));
    assert_eq!(rt; endpoint.close(), Ok(()));
    assert_eq!(rt; endpoint.left(), 0);
}

// Too few mixings are told with what is wanted and what is left.
fn short(wanted: u32, left: u32) -> Refusal {
    Refusal::Mixings(Shortfall { wanted, left })
}

#[test]
fn mixings(rt: HostRuntime) {
    let mut output = [0; 26];
    let mut two = Endpoint::new(Planar::new(2));
    assert_eq!(rt; two.start(KEY, NONCE), Err(short(3, 2)));
    let mut seven = Endpoint::new(Planar::new(7));
    assert_eq!(rt; seven.start(KEY, NONCE), Ok(()));
    assert_eq!(rt; seven.seal(AAD, MESSAGE, &mut output), Err(short(5, 4)));
    assert_eq!(rt; seven.open(AAD, SEALED, &mut output), Err(short(5, 4)));
    assert!(rt; output == [0; 26]);
    let mut eight = Endpoint::new(Planar::new(8));
    assert_eq!(rt; eight.start(KEY, NONCE), Ok(()));
    assert_eq!(rt; eight.seal(AAD, MESSAGE, &mut output), Ok(26));
    assert_eq!(rt; eight.left(), 0);
}
