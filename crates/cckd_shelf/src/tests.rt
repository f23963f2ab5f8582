use crate::Slot;

#[test]
fn nine_slots(rt: HostRuntime) {
    assert_eq!(rt; Slot::new(8).map(|slot| slot.get()), Some(8));
    assert_eq!(rt; Slot::new(9), None);
}
