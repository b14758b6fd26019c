ghost use Rattle.std.specs.Prelude.{◌≡◌};
ghost use Rattle.cu_num.specs.TypeName.{type_name, dtype_named};

use crate::types::Dtype;

/// The name of a type (Zarr v3 core, "Data types").
pub fn type_name(t: Dtype) -> &'static str
    ensures { result.now ≡ type_name t }
{
    match t {
        Dtype::Bool => "bool",
        Dtype::Int8 => "int8",
        Dtype::Int16 => "int16",
        Dtype::Int32 => "int32",
        Dtype::Int64 => "int64",
        Dtype::Uint8 => "uint8",
        Dtype::Uint16 => "uint16",
        Dtype::Uint32 => "uint32",
        Dtype::Uint64 => "uint64",
    }
}

/// The type of a name, and `None` where no type has it.
pub fn dtype_named(name: &str) -> Option<Dtype>
    ensures { result ≡ dtype_named name.now }
{
    match name {
        "bool" => Some(Dtype::Bool),
        "int8" => Some(Dtype::Int8),
        "int16" => Some(Dtype::Int16),
        "int32" => Some(Dtype::Int32),
        "int64" => Some(Dtype::Int64),
        "uint8" => Some(Dtype::Uint8),
        "uint16" => Some(Dtype::Uint16),
        "uint32" => Some(Dtype::Uint32),
        "uint64" => Some(Dtype::Uint64),
        _ => None,
    }
}
