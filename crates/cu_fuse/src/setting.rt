use cu_op::ArrayInfo;
use std::marker::Model;

/// What stays while the operations of a plan are merged: the arrays, the number of the output, the
/// bytes of memory that are allowed and reserved, and whether maps load an array once.
#[derive(Drop)]
pub(crate) struct MergeSetting {
    pub(crate) arrays: Vec<ArrayInfo>,
    pub(crate) out: u32,
    pub(crate) allowed: u64,
    pub(crate) reserved: u64,
    pub(crate) once: bool,
}

impl Model for MergeSetting {
    ghost use Rattle.cu_fuse.specs.Fused.{SettingView};

    ghost Value = { SettingView };

    ghost view = { λ s. record {
      arrays = s.arrays.items;
      out = s.out;
      allowed = s.allowed;
      reserved = s.reserved;
      once = s.once;
    } };
}
