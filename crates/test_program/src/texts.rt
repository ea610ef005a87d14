//! Bytes that are no text, nesting, and texts that are cut off or changed byte after byte.
use crate::expect::{answer_of, expect_unreadable};
use crate::inputs::PROVED_SEVENS;
use std::alloc::{AllocError, Global};
use std::process::Abort;
use std::test::Fail;

#[test]
fn bytes_that_are_no_text(rt: HostRuntime) -> Result<(), Fail> {
    expect_unreadable(rt.alloc(), "values", b"{\"log_n\":\"\xff\"}", "json")
}

// The reader takes 127 arrays within one another, and no more, of however many.
#[test]
fn nesting(rt: HostRuntime) -> Result<(), Fail> {
    let alloc = rt.alloc();
    let deep = vec![in alloc; b'['; 100000]?;
    for command in ["values", "prove", "verify", "shape"] {
        expect_unreadable(alloc, command, &deep, "json")?;
    }
    Ok(())
}

#[test]
fn texts_that_are_cut_off(rt: HostRuntime) -> Result<(), Fail> {
    let text = PROVED_SEVENS.as_bytes();
    for len in 0..text.len() {
        expect_unreadable(rt.alloc(), "verify", &text[..len], "json")?;
    }
    Ok(())
}

/// How the result begins where no byte is changed, and where one is, with the statuses.
const TAKEN: (&str, u8) = (r#"{"verified":true}"#, 0);

const UNREADABLE: (&str, u8) = (r#"{"unreadable":""#, 2);

// Puts other bytes in the place of one, and expects that the text then can't be read.
fn expect_bytes(
    rt: &impl Abort,
    alloc: Global,
    text: &mut [u8],
    i: usize,
) -> Result<(), AllocError> {
    let Some(old) = text.get(i).copied() else {
        return Ok(());
    };
    for new in [b'"', b'{', 0xff] {
        text[i] = new;
        let (begins, status) = if new == old { TAKEN } else { UNREADABLE };
        let answer = answer_of(alloc, "verify", text)?;
        let is_due = answer.status == status && answer.written.starts_with(begins.as_bytes());
        assert!(rt; is_due, "byte {i} is {new}");
    }
    text[i] = old;
    Ok(())
}

#[test]
fn bytes_that_are_changed(rt: HostRuntime) -> Result<(), Fail> {
    let mut text = Vec::from_slice(rt.alloc(), PROVED_SEVENS.as_bytes())?;
    for i in 0..text.len() {
        expect_bytes(&rt, rt.alloc(), &mut text, i)?;
    }
    Ok(())
}
