// Things: what a program may hold of the hardware, beside the values of Python.

use amh_bits::Int;
use amh_host::Items;
use data_layouts::{EnumShape, Layout};
use design_ir::ExprId;
use py_values::{Hw, Vals};
use shape_rules::Shape;

/// A name of Amaranth that is called to make a shape, a value, an array or a layout, or over which a class makes an enumeration or a layout.
#[derive(Clone, Copy, PartialEq, Eq, Drop)]
pub enum ThingName {
    Const,
    C,
    Cat,
    Mux,
    Array,
    Unsigned,
    Signed,
    Enum,
    IntEnum,
    Struct,
    StructLayout,
    UnionLayout,
    ArrayLayout,
}

/// A method of a value, or of a view.
#[derive(Clone, Copy, PartialEq, Eq, Drop)]
pub enum Method {
    Bool,
    Any,
    All,
    Xor,
    AsSigned,
    AsUnsigned,
    Shape,
    Eq,
    Replicate,
    BitSelect,
    WordSelect,
    Matches,
    /// Of a view alone.
    AsValue,
}

/// A member of an enumeration.
#[derive(Clone, Copy, PartialEq, Eq, Drop)]
pub struct Member {
    /// The enumeration.
    pub of: Hw,
    pub number: Int,
    /// The shape of the enumeration.
    pub shape: Shape,
    /// Whether it is compared as an integer, as a member over `IntEnum`.
    pub is_integer: bool,
}

/// What the bits of a value are read as: a number of its shape, a number of an enumeration, or the fields of a layout.
#[derive(Clone, Copy, PartialEq, Eq, Drop)]
pub enum Reading {
    Plain,
    Numbered(Hw),
    Viewed(Hw),
}

/// What the fields of a layout are read as, one after the other.
pub type Readings = Items<Reading>;

/// A layout, and what each of its fields is read as.
#[derive(Drop)]
pub struct LayoutThing {
    pub layout: Layout,
    pub readings: Readings,
    /// Whether the fields are the items of an array, which are reached by index alone.
    pub is_array: bool,
}

/// A thing of the store.
#[derive(Drop)]
pub enum Thing {
    /// A name that is called.
    Name(ThingName),
    /// A shape.
    Shape(Shape),
    /// The value of an expression of the pool.
    Value(ExprId),
    /// The value of an expression that has the shape of the enumeration at `of`.
    Numbered {
        of: Hw,
        value: ExprId,
    },
    /// An enumeration.
    Enumeration(EnumShape),
    Member(Member),
    Layout(LayoutThing),
    /// The value of an expression, whose bits are the fields of the layout at `of`.
    View {
        of: Hw,
        value: ExprId,
    },
    /// An array: its elements may be any values of the program.
    Array(Vals),
    /// A method of the value that stands at `of`, which is that of the expression.
    Method {
        of: Hw,
        value: ExprId,
        method: Method,
    },
    /// A number that the crate above keeps for a thing of its own.
    Kept(u32),
}
