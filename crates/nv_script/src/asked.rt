//! That an audit was asked.

use nv_core::Audited;

/// Stands for an audit that found nothing. Only what an audit gave makes one, since no other module reaches the field.
/// Only what an audit gave makes one: no other module reaches its field.
#[derive(Drop)]
pub struct Asked {
    found: (),
}

impl Asked {
    /// What stands for the audit that gave this.
    pub(crate) fn by(_audited: &Audited<'_>) -> Asked {
        Asked { found: () }
    }
}
