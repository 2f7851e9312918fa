//! Listings that are read, cut, and changed in one line. A row has the number of the line that is
//! refused; 0 where the text is read, and is the listing of what was read.

use jz_data::Failure;
use jz_listing::listing;
use jz_listing_read::read_listing;
use std::alloc::{AllocError, Global};

const ADD: &str =
    "jasmin-listing 1\nfn add\narg x u64 rdi\narg y u64 rsi\nret x u64 rax\nframe 0\nsaved -\ninsns 3\ncode 4889f84801f0c3\ntr [] {op[] op[]} [a:@0]\nct yes\nend\n";

/// How many bytes of the listing are kept, and the line that is refused.
static CUTS: [(usize, usize); 12] = [
    (0, 1),
    (13, 1),
    (14, 1),
    (16, 1),
    (17, 0),
    (18, 2),
    (22, 2),
    (24, 3),
    (110, 10),
    (112, 10),
    (141, 11),
    (145, 12),
];

fn outcome(alloc: Global, text: &[u8]) -> Result<usize, AllocError> {
    match read_listing(alloc, text) {
        Ok(funs) => {
            let again = listing(alloc, funs.as_slice())?;
            Ok(if again.as_slice() == text { 0 } else { 99 })
        }
        Err(Failure::Refused(line)) => Ok(line),
        Err(Failure::OutOfMemory) => Err(AllocError),
    }
}

#[test]
fn cuts(rt: HostRuntime) -> Result<(), AllocError> {
    let text = ADD.as_bytes();
    for (length, want) in CUTS.iter() {
        let cut = &text[..(*length).min(text.len())];
        let line = outcome(rt.alloc(), cut)?;
        assert_eq!(rt; line, *want, "{length}");
    }
    assert_eq!(rt; outcome(rt.alloc(), text)?, 0usize);
    Ok(())
}

/// Texts and the line that is refused.
static TEXTS: [(&str, usize); 8] = [
    ("jasmin-listing 2\n", 1),
    ("jasmin-listing 1\nfn f\nframe 0\n", 4),
    (
        "jasmin-listing 1\nfn f\nret r u8 rax\narg x u8 rdi\nframe 0\n",
        4,
    ),
    (
        "jasmin-listing 1\nfn f\npre align p 8\nret r u8 rax\nframe 0\n",
        4,
    ),
    ("jasmin-listing 1\nfn f\nframe 0\nframe 0\n", 4),
    ("jasmin-listing 1\njasmin-listing 1\n", 2),
    ("jasmin-listing 1\n\n", 2),
    (
        "jasmin-listing 1\nfn f\nframe 0\nsaved -\ninsns 0\ncode \ntr [] {} []\nct yes\nend\nend\n",
        10,
    ),
];

#[test]
fn texts(rt: HostRuntime) -> Result<(), AllocError> {
    for (text, want) in TEXTS.iter() {
        let line = outcome(rt.alloc(), text.as_bytes())?;
        assert_eq!(rt; line, *want, "{text}");
    }
    Ok(())
}

/// A listing whose transformer is a hundred thousand beginnings of a call.
fn hostile(alloc: Global) -> Result<Vec<u8>, AllocError> {
    let mut text = Vec::from_slice(alloc, b"jasmin-listing 1\nfn f\nframe 0\n")?;
    text.extend_from_slice(b"saved -\ninsns 0\ncode \ntr [] ")?;
    for _ in 0..100_000 {
        text.extend_from_slice(b"{call([] ")?;
    }
    Ok(text)
}

#[test]
fn nested(rt: HostRuntime) -> Result<(), AllocError> {
    let text = hostile(rt.alloc())?;
    let line = outcome(rt.alloc(), text.as_slice())?;
    assert_eq!(rt; line, 7usize);
    Ok(())
}
