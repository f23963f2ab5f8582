//! What may cross threads.
use crate::pass::{Pass, Taken};
use crate::stands::Stands;
use crate::table::TurnTable;

fn is_send<T: Send>() {}

fn is_sync<T: Sync>() {}

/// Shows that a table and a taken value cross threads where the value may, and a pass always. It does nothing.
pub fn cross_threads<V: Stands + Send>() {
    is_send::<TurnTable<V>>();
    is_sync::<TurnTable<V>>();
    is_send::<Taken<V>>();
    is_send::<Pass<V::Entry>>();
}
