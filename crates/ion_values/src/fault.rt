/// Why a text of Ion is refused.
#[derive(Clone, Copy, Debug, PartialEq, Eq)]
pub enum IonKind {
    NotUtf8,
    BadToken,
    Unclosed,
    FloatRefused,
    TooWide,
    TooDeep,
    SymbolIdRefused,
    BadTimestamp,
    BadBase64,
}

/// Where a text of Ion is refused, as an offset in bytes, and why.
#[derive(Clone, Copy, Debug, PartialEq, Eq)]
pub struct IonFault {
    pub at: u64,
    pub kind: IonKind,
}
