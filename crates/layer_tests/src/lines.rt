//! What is written behind what stands, and what mentions variables past the names.

use line_text::{Claim, are_over, is_claim_over, is_over, push_claim, push_number};
use linear_cons::{Affine, Row, RowKind};
use std::alloc::{AllocError, Global};
use std::test::Fail;
use step_meaning::Names;

const NAMES: &[&str] = &["x", "y", "always"];

fn names(alloc: Global) -> Result<Names, AllocError> {
    let mut list = Vec::new(alloc);
    for name in NAMES {
        list.push(name.as_bytes().to_vec(alloc)?)?;
    }
    Ok(Names::of(list))
}

#[test]
fn numbers_and_claims_go_behind_what_stands(rt: HostRuntime) -> Result<(), Fail> {
    let names = names(rt.alloc())?;
    let mut text = b"a".to_vec(rt.alloc())?;
    push_number(&mut text, -10)?;
    push_claim(&mut text, &Claim::Holds, &names)?;
    assert_eq!(rt; text.as_slice(), b"a-10holds".as_slice());
    Ok(())
}

/// Places of variables, and whether they are over three names.
const PLACES: &[(u8, bool)] = &[(0, true), (2, true), (3, false), (15, false)];

#[test]
fn variables_past_the_names_are_told(rt: HostRuntime) -> Result<(), Fail> {
    let names = names(rt.alloc())?;
    for &(place, over) in PLACES {
        let bound = Affine::var(place);
        let claim = Claim::Within(bound);
        assert_eq!(rt;
            (is_over(&bound, &names), is_claim_over(&claim, &names)),
            (over, over)
        );
        if let RowKind::Row(row) = Row::of(bound) {
            assert_eq!(rt; are_over(&[row], &names), over);
        }
    }
    Ok(())
}
