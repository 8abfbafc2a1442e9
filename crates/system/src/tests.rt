// Expected values were worked out apart, by another formula than the one that the code uses.
use crate::residues::{Residues, System};
use refusal::Refusal;
use scheme::Scheme;
use std::test::Fail;

fn residues(first: u64, second: u64, third: u64) -> Residues {
    Residues {
        first,
        second,
        third,
    }
}

#[test]
fn three_five_seven(rt: HostRuntime) -> Result<(), Fail> {
    let mut s = System::new(3, 5, 7)?;
    assert_eq!(rt; s.modulus(), 105);
    let x = residues(2, 3, 2);
    assert!(rt; s.test(x));
    assert_eq!(rt; s.open(x), 23);
    assert_eq!(rt; s.sum(x, residues(2, 2, 5)), residues(1, 0, 0));
    assert_eq!(rt; s.opposite(x), residues(1, 2, 5));
    assert_eq!(rt; s.zero(), residues(0, 0, 0));
    assert_eq!(rt; s.seal(-1, 0), Ok(residues(2, 4, 6)));
    Ok(())
}

#[test]
fn largest(rt: HostRuntime) -> Result<(), Fail> {
    let mut s = System::new(1_048_575, 1_048_573, 1_048_571)?;
    assert_eq!(rt; s.modulus(), 1_152_911_609_026_314_225);
    assert_eq!(rt;
        s.open(residues(1_048_574, 1_048_572, 1_048_570)),
        1_152_911_609_026_314_224
    );
    assert_eq!(rt; s.open(residues(1, 2, 3)), 576_455_804_513_681_401);
    let word = 1_152_911_609_026_314_224;
    assert_eq!(rt;
        s.seal(576_455_804_513_157_112, word),
        Ok(residues(524_287, 524_286, 524_285))
    );
    assert_eq!(rt;
        s.seal(-576_455_804_513_157_112, 0),
        Ok(residues(524_288, 524_287, 524_286))
    );
    assert_eq!(rt; s.seal(576_455_804_513_157_113, 1), Err(Refusal::Large));
    assert_eq!(rt; s.seal(i64::MIN, word + 1), Err(Refusal::Large));
    assert_eq!(rt;
        s.seal(576_455_804_513_157_112, word + 1),
        Err(Refusal::Mask)
    );
    Ok(())
}

#[test]
fn moduli(rt: HostRuntime) {
    for (first, second, third, refusal) in [
        (1_048_575, 7, 9, Some(Refusal::Modulus)),
        (1_048_575, 7, 13, None),
        (7, 13, 1_048_577, Some(Refusal::Modulus)),
        (1, 5, 7, Some(Refusal::Modulus)),
        (5, 4, 7, Some(Refusal::Modulus)),
        (9, 15, 7, Some(Refusal::Modulus)),
        (9, 7, 15, Some(Refusal::Modulus)),
        (7, 9, 15, Some(Refusal::Modulus)),
        (9, 25, 49, None),
    ] {
        assert_eq!(rt;
            System::new(first, second, third).err(),
            refusal,
            "at {first} {second} {third}"
        );
    }
}

#[test]
fn malformed(rt: HostRuntime) -> Result<(), Fail> {
    let mut s = System::new(3, 5, 7)?;
    assert!(rt; !s.test(residues(3, 4, 6)));
    assert!(rt; !s.test(residues(2, 5, 6)));
    assert!(rt; !s.test(residues(2, 4, 7)));
    assert!(rt; s.test(residues(2, 4, 6)));
    let wild = residues(u64::MAX, u64::MAX, u64::MAX);
    let _ = s.sum(wild, wild);
    let _ = s.opposite(wild);
    let _ = s.open(wild);
    assert!(rt; !s.test(wild));
    Ok(())
}
