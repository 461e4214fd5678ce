// Two short lists of exchanges, rehearsed over engines of two kinds.
use crate::published::{AAD, FORGED, KEY, MESSAGE, NONCE, SEALED};
use cbeam::plain::Plain;
use cbeam::planar::Planar;
use engine::Engine;
use link::refusal::Refusal;
use rehearsal::exchange::{Answer, Exchange, Request};
use rehearsal::rehearse::rehearse;
use std::alloc::{AllocError, Global};
use std::process::Abort;
use std::test::Fail;

fn exchange(heap: Global, request: Request, room: &[u8]) -> Result<Exchange, AllocError> {
    let output = room.to_vec(heap)?;
    Ok(Exchange {
        request,
        output,
        answer: None,
    })
}

fn start(heap: Global) -> Result<Exchange, AllocError> {
    let key = KEY.to_vec(heap)?;
    let nonce = NONCE.to_vec(heap)?;
    exchange(heap, Request::Start { key, nonce }, &[])
}

fn seal(heap: Global) -> Result<Exchange, AllocError> {
    let aad = AAD.to_vec(heap)?;
    let message = MESSAGE.to_vec(heap)?;
    exchange(heap, Request::Seal { aad, message }, &[7; 28])
}

fn open(heap: Global, bytes: &[u8]) -> Result<Exchange, AllocError> {
    let aad = AAD.to_vec(heap)?;
    let sealed = bytes.to_vec(heap)?;
    exchange(heap, Request::Open { aad, sealed }, &[7; 20])
}

fn tool_list(heap: Global) -> Result<[Exchange; 3], AllocError> {
    let start = start(heap)?;
    let seal = seal(heap)?;
    let close = exchange(heap, Request::Close, &[])?;
    Ok([start, seal, close])
}

fn drive_list(heap: Global) -> Result<[Exchange; 4], AllocError> {
    let start = start(heap)?;
    let forged = open(heap, FORGED)?;
    let opened = open(heap, SEALED)?;
    let left = exchange(heap, Request::Left, &[])?;
    Ok([start, forged, opened, left])
}

fn tool_has_sealed(rt: &impl Abort, list: &[Exchange; 3]) {
    let [start, seal, close] = list;
    assert_eq!(rt; start.answer, Some(Ok(Answer::Started)));
    assert_eq!(rt; seal.answer, Some(Ok(Answer::Sealed(26))));
    assert!(rt; seal.output.starts_with(SEALED));
    assert!(rt; seal.output.ends_with(&[7; 2]));
    assert_eq!(rt; close.answer, Some(Ok(Answer::Closed)));
}

fn drive_has_opened(rt: &impl Abort, list: &[Exchange; 4]) {
    let [start, forged, opened, left] = list;
    assert_eq!(rt; start.answer, Some(Ok(Answer::Started)));
    assert_eq!(rt; forged.answer, Some(Err(Refusal::Tag)));
    assert_eq!(rt; opened.answer, Some(Ok(Answer::Opened(18))));
    assert!(rt; opened.output.starts_with(MESSAGE));
    assert_eq!(rt; left.answer, Some(Ok(Answer::Left(1))));
}

#[test]
fn one_seals_and_the_other_opens(rt: HostRuntime) -> Result<(), Fail> {
    let heap = rt.alloc();
    let mut tool_list = tool_list(heap)?;
    let mut drive_list = drive_list(heap)?;
    let (tool, drive) = rehearse(
        Plain::new(8),
        Planar::new(14),
        &mut tool_list,
        &mut drive_list,
    );
    tool_has_sealed(&rt, &tool_list);
    drive_has_opened(&rt, &drive_list);
    assert_eq!(rt; tool.left(), 0);
    assert_eq!(rt; drive.left(), 1);
    Ok(())
}
