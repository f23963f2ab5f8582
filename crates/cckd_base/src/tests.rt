use super::*;

#[test]
fn devices_have_their_shapes(rt: HostRuntime) {
    let rows = [
        ("2311", 0x11, 200, 10, 4_096),
        ("2314", 0x14, 200, 20, 7_680),
        ("3330", 0x30, 404, 19, 13_312),
        ("3350", 0x50, 555, 30, 19_456),
        ("3380", 0x80, 885, 15, 47_616),
        ("3380-E", 0x80, 1_770, 15, 47_616),
        ("3380-K", 0x80, 2_655, 15, 47_616),
        ("3390-1", 0x90, 1_113, 15, 56_832),
        ("3390-2", 0x90, 2_226, 15, 56_832),
        ("3390-3", 0x90, 3_339, 15, 56_832),
        ("3390-9", 0x90, 10_017, 15, 56_832),
    ];
    for (name, devtype, cyls, heads, track_size) in rows {
        let shape = Geometry {
            devtype,
            heads,
            cyls,
            track_size,
        };
        assert_eq!(rt; geometry_of(name.as_bytes()), Some(shape), "{name}");
    }
    for name in ["", "3390", "3390-10", "3380-e", " 2311"] {
        assert_eq!(rt; geometry_of(name.as_bytes()), None, "{name}");
    }
}

#[test]
fn entries_stand_in_both_orders(rt: HostRuntime) {
    let rows = [
        (
            Order::Little,
            [0x20, 0x0c, 0, 0, 0x39, 1, 0x40, 1],
            (3_104, 313, 320),
        ),
        (
            Order::Little,
            [0x2c, 0x0c, 0, 0, 0x89, 0, 0x90, 0],
            (3_116, 137, 144),
        ),
        (
            Order::Big,
            [0, 0, 0x0c, 0x80, 0, 0x89, 0, 0x90],
            (3_200, 137, 144),
        ),
        (Order::Big, [0, 0, 0, 0, 0, 1, 0, 1], (0, 1, 1)),
        (Order::Little, [0xff; 8], (0xffff_ffff, 0xffff, 0xffff)),
    ];
    for (order, bytes, (pos, len, size)) in rows {
        let entry = L2Entry { pos, len, size };
        assert_eq!(rt; L2Entry::decode(order, bytes), entry);
        assert_eq!(rt; entry.encode(order), bytes);
        assert_eq!(rt; entry.is_null(), pos == 0);
        assert_eq!(rt; entry.is_parent(), pos == 4_294_967_295);
    }
}

#[test]
fn a_track_has_its_place(rt: HostRuntime) {
    let disk = Geometry {
        devtype: 0x90,
        heads: 15,
        cyls: 1_113,
        track_size: 56_832,
    };
    let rows = [
        (0, 0, Some(0)),
        (0, 14, Some(14)),
        (1, 0, Some(15)),
        (1_112, 14, Some(16_694)),
        (1_113, 0, None),
        (0, 15, None),
    ];
    for (cyl, head, number) in rows {
        assert_eq!(rt;
            disk.track(Addr { cyl, head }),
            number.map(Track),
            "{cyl} {head}"
        );
    }
    assert_eq!(rt;
        disk.addr(Track(16_694)),
        Addr {
            cyl: 1_112,
            head: 14
        }
    );
    for (fmt, admitted) in [(0, true), (1, true), (2, false), (255, false)] {
        assert_eq!(rt; disk.admits(fmt), admitted, "{fmt}");
    }
}

#[test]
fn words_stand_in_both_orders(rt: HostRuntime) {
    let bytes = [0x20, 0x0c, 1, 2, 9, 9];
    for (order, number) in [(Order::Little, 0x0201_0c20), (Order::Big, 0x200c_0102)] {
        assert_eq!(rt; order.read_u32(bytes.as_slice()), number);
    }
}

#[test]
fn a_layout_has_its_groups_and_its_header_area(rt: HostRuntime) {
    let rows = [
        (200, 10, 2_000, 8, 1_056),
        (1_113, 15, 16_695, 66, 1_288),
        (65_536, 16, 1_048_576, 4_096, 17_408),
        (1, 1, 1, 1, 1_028),
        (257, 1, 257, 2, 1_032),
    ];
    for (cyls, heads, tracks, groups, area) in rows {
        let geo = Geometry {
            devtype: 0x90,
            heads,
            cyls,
            track_size: 4_096,
        };
        assert_eq!(rt; geo.tracks(), tracks);
        assert_eq!(rt; geo.groups(), groups);
        let layout = Layout {
            order: Order::Big,
            geo,
            groups,
            shadow: false,
            null_fmt: 0,
        };
        assert_eq!(rt; layout.area(), area);
    }
}

#[test]
fn bytes_are_put_behind_bytes(rt: HostRuntime) {
    let mut buffer = [7; 6];
    let end = put_bytes(buffer.as_mut_slice(), 1, &[1, 2]);
    assert!(rt; end == 3);
    assert_eq!(rt; put_bytes(buffer.as_mut_slice(), end, &[3]), 4);
    assert_eq!(rt; buffer, [7, 1, 2, 3, 7, 7]);
}
