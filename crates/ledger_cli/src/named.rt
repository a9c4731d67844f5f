//! Names with their values.
ghost use Rattle.std.specs.Prelude.{◌≡◌};

/// A value, and the text that stands before it.
#[derive(Drop)]
pub struct Named<T> {
    pub name: &'static str,
    pub value: T,
}

/// The value with this name.
pub fn with_name<T>(name: &'static str, value: T) -> Named<T>
    ensures name { result.name.now ≡ name.now }
    ensures value { result.value ≡ value }
{
    Named { name, value }
}
