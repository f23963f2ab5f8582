use super::*;
use cckd_base::{CountField, GeoField, Geometry, HeaderFault, Layout, Order};

/// The headers of a closed base of a 2311 without a table, in the byte order of its own numbers.
fn headers(big: bool) -> [u8; 1024] {
    let mut headers = [0; 1024];
    headers[..20].copy_from_slice(b"CKD_C370\x0a\0\0\0\x00\x10\0\0\x11\0\0\0");
    headers[512..516].copy_from_slice(&[0, 3, 1, if big { 2 } else { 0 }]);
    let own = if big {
        [[0, 0, 0, 8], [0, 0, 1, 0], [0, 0, 4, 32]]
    } else {
        [[8, 0, 0, 0], [0, 1, 0, 0], [32, 4, 0, 0]]
    };
    headers[516..520].copy_from_slice(&own[0]);
    headers[520..524].copy_from_slice(&own[1]);
    headers[524..528].copy_from_slice(&own[2]);
    headers[528..532].copy_from_slice(&own[2]);
    headers[552] = 200;
    headers[558] = 0xff;
    headers[559] = 0xff;
    headers
}

/// Puts a byte at its place.
fn set(headers: &mut [u8; 1024], put: (usize, u8)) {
    if put.0 < 1024 {
        headers[put.0] = put.1;
    }
}

#[test]
fn both_orders_say_the_same(rt: HostRuntime) {
    for big in [false, true] {
        let bytes = headers(big);
        let Ok(header) = decode(&bytes, 1_056, Roles::Base) else {
            assert_eq!(rt; big, !big, "refused");
            return;
        };
        assert_eq!(rt;
            (header.dev.heads, header.dev.track_size, header.dev.devtype),
            (10, 4_096, 0x11)
        );
        assert_eq!(rt;
            (header.cckd.words, header.cckd.entries, header.cckd.cyls),
            (8, 256, 200)
        );
        assert_eq!(rt;
            (header.cckd.size, header.cckd.used, header.cckd.param),
            (1_056, 1_056, -1)
        );
    }
}

#[test]
fn headers_are_written_as_they_were_read(rt: HostRuntime) {
    for big in [false, true] {
        let mut bytes = headers(big);
        // Bytes that no reader interprets: the highest cylinder, reserved ones, version, options, compression.
        for place in [18, 19, 20, 511, 512, 557, 558, 560, 1023] {
            bytes[place] = 0xa5;
        }
        bytes[515] |= 0x80;
        let Ok(header) = decode(&bytes, 1_056, Roles::Either) else {
            assert_eq!(rt; big, !big, "refused");
            return;
        };
        let same = header.encode() == bytes;
        assert_eq!(rt; same, true, "{big}");
        let order = if big { Order::Big } else { Order::Little };
        let layout = header.layout();
        assert_eq!(rt;
            (layout.order, layout.groups, layout.shadow, layout.null_fmt),
            (order, 8, false, 0)
        );
    }
}

#[test]
fn each_fault_is_the_first(rt: HostRuntime) {
    let geometry = |field, value| HeaderFault::BadGeometry { field, value };
    let counts = |field, value| HeaderFault::BadCounts { field, value };
    let id = *b"CKD_C370";
    let rows = [
        ((516, 9), (17, 0), 1_056, counts(CountField::LevelOne, 9)),
        ((8, 0), (9, 0), 1_056, geometry(GeoField::Heads, 0)),
        ((17, 0), (17, 0), 1_000, HeaderFault::NotCckd { id }),
        ((17, 0), (17, 0), 1_040, counts(CountField::Length, 1_040)),
        (
            (0, b'c'),
            (17, 0),
            1_056,
            HeaderFault::NotCckd { id: *b"cKD_C370" },
        ),
        ((552, 0), (17, 0), 1_056, geometry(GeoField::Cylinders, 0)),
        (
            (554, 1),
            (552, 1),
            1_056,
            geometry(GeoField::Cylinders, 65_537),
        ),
        ((10, 1), (553, 1), 1_056, geometry(GeoField::Heads, 65_546)),
        (
            (9, 64),
            (552, 65),
            1_056,
            geometry(GeoField::Tracks, 1_065_610),
        ),
        ((13, 0), (12, 36), 1_056, geometry(GeoField::TrackSize, 36)),
        (
            (13, 254),
            (12, 1),
            1_056,
            geometry(GeoField::TrackSize, 65_025),
        ),
        ((17, 2), (13, 0), 1_056, geometry(GeoField::TrackSize, 0)),
        ((17, 2), (516, 9), 1_056, geometry(GeoField::Sequence, 2)),
        ((520, 1), (556, 2), 1_056, counts(CountField::LevelTwo, 257)),
        (
            (556, 2),
            (17, 0),
            2_147_483_641,
            counts(CountField::Length, 2_147_483_641),
        ),
        (
            (556, 2),
            (17, 1),
            1_056,
            HeaderFault::BadNullFormat { value: 2 },
        ),
        ((8, 0), (516, 9), 1_056, geometry(GeoField::Heads, 0)),
    ];
    for (first, second, len, fault) in rows {
        let mut bytes = headers(false);
        set(&mut bytes, first);
        set(&mut bytes, second);
        assert_eq!(rt; decode(&bytes, len, Roles::Base), Err(fault));
    }
}

#[test]
fn an_identifier_has_its_roles(rt: HostRuntime) {
    let rows = [
        (b'C', Roles::Base, true),
        (b'C', Roles::Shadow, false),
        (b'C', Roles::Either, true),
        (b'S', Roles::Base, false),
        (b'S', Roles::Shadow, true),
        (b'S', Roles::Either, true),
        (b'P', Roles::Either, false),
    ];
    for (letter, roles, accepted) in rows {
        let mut bytes = headers(true);
        bytes[4] = letter;
        assert_eq!(rt;
            decode(&bytes, 1_056, roles).is_ok(),
            accepted,
            "{letter} {roles:?}"
        );
    }
}

#[test]
fn new_headers_are_those_of_a_closed_base(rt: HostRuntime) {
    let l = Layout {
        order: Order::Big,
        geo: Geometry {
            devtype: 0x11,
            heads: 10,
            cyls: 200,
            track_size: 4_096,
        },
        groups: 8,
        shadow: true,
        null_fmt: 0,
    };
    let base = ImageHeader::fresh(&l, Roles::Base).encode();
    let same = base == headers(false);
    assert_eq!(rt; same, true);
    let mut shadow = headers(false);
    shadow[4] = b'S';
    for roles in [Roles::Shadow, Roles::Either] {
        let same = ImageHeader::fresh(&l, roles).encode() == shadow;
        assert_eq!(rt; same, true, "{roles:?}");
    }
}
