ghost use Rattle.layout.specs.Layout.{Layout, both};
ghost use Rattle.layout.specs.Exact.{IsExact};
ghost use Rattle.layout.specs.Laws.{HasOneSpelling, HasOneFault, IsDecided, IsRead, IsReadUnless};

/// A layout that is read exactly.
pub trait Format {
    ghost Value: { Type 0 };

    ghost Fault: { Type 0 };

    ghost layout: { Layout Value Fault };

    ghost exact: { IsExact layout };
}

/// A layout that is read exactly, and behind it one that depends on the first value, and is read exactly too.
pub trait Following {
    ghost First: { Type 0 };

    ghost Second: { Type 0 };

    ghost Fault: { Type 0 };

    ghost first: { Layout First Fault };

    ghost second: { First → Layout Second Fault };

    ghost first_exact: { IsExact first };

    ghost second_exact: { (value : First) → IsExact (second value) };
}

/// What is built of exact parts is exact.
pub fn both_is_exact<P: Following>()
    ensures { IsExact (both P.first P.second) }
{}

/// No spelling of one value is a prefix of another's.
pub fn one_spelling<L: Format>()
    ensures { HasOneSpelling L.layout }
{}

/// A text has at most one fault.
pub fn one_fault<L: Format>()
    ensures { HasOneFault L.layout }
{}

/// A text has a fault exactly where it does not begin with a spelling.
pub fn is_decided<L: Format>()
    ensures { IsDecided L.layout }
{}

/// A call that gives what the reading function gives keeps what a public reader promises.
pub fn is_read<L: Format>()
    ensures { IsRead L.layout }
{}

/// The same for a call that may also run out of memory.
pub fn is_read_unless<L: Format>()
    ensures { IsReadUnless L.layout }
{}
