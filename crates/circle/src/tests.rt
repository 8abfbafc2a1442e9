// Values from an independent calculation, in whole numbers of any size from the rules of the circle.
use super::*;

const EXPECTED: [(u32, u32); 33] = [
    (1073741824, 0),
    (1073418433, 26350943),
    (1072448455, 52686014),
    (1070832474, 78989349),
    (1068571464, 105245103),
    (1065666786, 131437462),
    (1062120190, 157550647),
    (1057933813, 183568930),
    (1053110176, 209476638),
    (1047652185, 235258165),
    (1041563127, 260897982),
    (1034846671, 286380643),
    (1027506862, 311690799),
    (1019548121, 336813204),
    (1010975242, 361732726),
    (1001793390, 386434353),
    (992008094, 410903207),
    (981625251, 435124548),
    (970651112, 459083786),
    (959092290, 482766489),
    (946955747, 506158392),
    (934248793, 529245404),
    (920979082, 552013618),
    (907154608, 574449320),
    (892783698, 596538995),
    (877875009, 618269337),
    (862437520, 639627258),
    (846480531, 660599890),
    (830013654, 681174602),
    (813046808, 701339000),
    (795590213, 721080937),
    (777654384, 740388522),
    (759250125, 759250125),
];

// Every entry of the first eighth, and its mirror image.
#[test]
fn quarter_of_the_circle(rt: HostRuntime) {
    for (v, (cos, sin)) in EXPECTED.into_iter().enumerate() {
        assert_eq!(rt; cosine(v), Some(cos));
        assert_eq!(rt; sine(v), Some(sin));
        assert_eq!(rt; cosine(64 - v), Some(sin));
        assert_eq!(rt; sine(64 - v), Some(cos));
    }
    assert_eq!(rt; cosine(65), None);
    assert_eq!(rt; sine(usize::MAX), None);
}

// Twiddles at several scales, in every quarter of the circle: place, scale, both components.
#[test]
fn twiddles(rt: HostRuntime) {
    let expected: [(usize, u32, i64, i64); 12] = [
        (16, 10, 9, -4),
        (32, 10, 7, -7),
        (64, 10, 0, -10),
        (97, 10, -7, -7),
        (16, 32768, 30274, -12540),
        (97, 32768, -23732, -22595),
        (200, 32768, 6393, 32138),
        (511, 32768, 32758, 804),
        (97, 4294967295, -3110617535, -2961554087),
        (200, 4294967295, 837906552, 4212440703),
        (16, 1, 1, 0),
        (200, 0, 0, 0),
    ];
    for (u, scale, re, im) in expected {
        assert_eq!(rt; twiddle(u, scale), Complex { re, im });
    }
}

// Fine twiddles past a turn, and spreads at the ends of the scales.
#[test]
fn fine_twiddles_and_spreads(rt: HostRuntime) {
    assert_eq!(rt;
        fine_twiddle(200),
        Complex {
            re: 209476638,
            im: 1053110176,
        }
    );
    assert_eq!(rt;
        fine_twiddle(usize::MAX),
        Complex {
            re: 1073418433,
            im: 26350943,
        }
    );
    assert_eq!(rt; spread(0), 1);
    assert_eq!(rt; spread(32768), 49153);
    assert_eq!(rt; spread(u32::MAX), 6442450943);
}
