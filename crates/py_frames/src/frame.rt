// What is left to do: a frame for each node that waits for a part of it.
ghost use Rattle.std.specs.Prelude.{◌≡◌, [], ◌∷◌, OnOk, MatchOption};
ghost use Rattle.py_frames.specs.Turns.{is_alone};

use crate::boxed::Boxed;
use crate::request::{Act, NamedVals, Request};
use crate::state::{Got, Here};
use amh_host::{NoMemory, Place};
use py_tree::{Block, Expr, Name, Stmt};
use py_values::{Builtin, ObjId, PyOp, ScopeId, Val, Vals};
use std::alloc::Global;
use std::marker::Model;

/// What the value of an expression is for.
#[derive(Drop)]
pub enum Purpose {
    Plain,
    /// It is assigned to this name, where the expression is a call.
    Named(Name),
    /// It stands behind the `await` at this place.
    Awaited(Place),
}

/// Where the walk along what trails a primary leads.
#[derive(Drop)]
pub enum Along {
    /// To the value of the expression.
    Value(Purpose),
    /// To the last of it, where this value is stored.
    Store(Val),
    /// To the last of it, whose parts are evaluated and where nothing is stored.
    Reach,
    /// To the last of it, which this augmented assignment changes.
    Augment(Stmt),
}

/// What an augmented assignment changes: a name, or an attribute or an item of a value.
#[derive(Drop)]
pub enum Changed {
    Name,
    Attribute(Val, Name),
    Index(Val, Val),
}

/// A walk over the elements of a value: the value, the number of the next element, and how many turns there may be.
#[derive(Clone, Copy, Drop)]
pub struct Walk {
    pub over: Val,
    pub next: u64,
    pub size: u64,
    pub turns: u64,
}

/// A comprehension: its node, or the call that it is the one argument of, by the number of what trails there.
#[derive(Drop)]
pub struct Comprehended {
    pub node: Expr,
    pub trailer: Option<u64>,
}

/// The parts of expressions.
#[derive(Drop)]
pub enum ExprFrame {
    /// Of a display or a tuple: the number of the next item, and the items before it.
    Items {
        node: Expr,
        next: u64,
        vals: Vals,
    },
    /// Of a dict: the key of the pair of this number, behind the keys and values before it.
    Key {
        node: Expr,
        at: u64,
        row: Vals,
    },
    /// The value of that pair, with its key.
    PairValue {
        node: Expr,
        at: u64,
        row: Vals,
        key: Val,
    },
    /// The left operand of `**`.
    Base {
        node: Expr,
    },
    /// The right operand, with the left one.
    Right {
        op: PyOp,
        left: Val,
        place: Place,
    },
    /// The one operand.
    Single {
        op: PyOp,
        place: Place,
    },
    /// The operand before the link of this number.
    Linked {
        node: Expr,
        at: u64,
    },
    /// The same of a comparison.
    Compared {
        node: Expr,
        at: u64,
    },
    /// The operand of the comparison of this number, with the one before it.
    Comparing {
        node: Expr,
        at: u64,
        left: Val,
    },
    /// What the comparison of this number gave, with its right operand.
    Decided {
        node: Expr,
        at: u64,
        right: Val,
    },
    /// Whether a value equals the element before the one of this number, of a list or a tuple in which it is sought.
    Seeking {
        sign: bool,
        sought: Val,
        row: Vals,
        next: u64,
        place: Place,
    },
    /// The operand before the `and` or `or` of this number.
    Joined {
        node: Expr,
        at: u64,
    },
    /// The test of a choice.
    Chosen {
        node: Expr,
    },
}

/// What trails a primary, and calls.
#[derive(Drop)]
pub enum CallFrame {
    /// The value that what trails at this number stands behind.
    Trail {
        node: Expr,
        at: u64,
        along: Along,
    },
    /// The argument of this number, of the call at a trailer.
    Argument {
        node: Expr,
        trailer: u64,
        at: u64,
        callee: Val,
        vals: Vals,
        keywords: NamedVals,
        purpose: Purpose,
    },
    /// The tuple of a thing's elements, for the `*` argument of this number.
    Spread {
        node: Expr,
        trailer: u64,
        at: u64,
        callee: Val,
        vals: Vals,
        keywords: NamedVals,
        purpose: Purpose,
    },
    /// The list of the one argument that is a comprehension.
    ListGiven {
        callee: Val,
        purpose: Purpose,
        place: Place,
    },
    /// The index of what is indexed.
    Indexed {
        over: Val,
        place: Place,
    },
    /// A part of a slice, with those before it.
    Sliced {
        node: Expr,
        trailer: u64,
        over: Val,
        parts: Vals,
    },
    /// What is awaited.
    Awaited {
        place: Place,
    },
    /// What the store says of an attribute; so many answers may still tell of another value.
    AttributeTold {
        name: Name,
        place: Place,
        rounds: u64,
    },
    /// The elements of a thing, for a builtin that goes over them.
    GoneOver {
        builtin: Builtin,
        count: u64,
        done: Vals,
        rest: Vals,
        place: Place,
    },
    /// A sum, to which the items of a row are added from this number on.
    Summing {
        row: Vals,
        next: u64,
        place: Place,
    },
    /// What an `__init__` gave.
    Initialised {
        object: ObjId,
        place: Place,
    },
    /// The names that the store gives an object, and what the call comes to.
    InitNames {
        object: ObjId,
        place: Place,
        result: Val,
    },
    /// What a function's body leaves.
    CallEnd {
        outer: Here,
    },
    /// The value of a function that an answer began; so many may still be begun.
    Answering {
        act: Act,
        place: Place,
        callee: Val,
        rounds: u64,
    },
}

/// Comprehensions and targets.
#[derive(Drop)]
pub enum WalkFrame {
    /// The source of a comprehension.
    Source {
        comp: Comprehended,
    },
    /// The elements of a thing that is the source.
    SourceRow {
        comp: Comprehended,
    },
    /// An element went to the targets.
    Bound {
        comp: Comprehended,
        walk: Walk,
        done: Vals,
        outer: ScopeId,
    },
    /// The condition.
    Tested {
        comp: Comprehended,
        walk: Walk,
        done: Vals,
        outer: ScopeId,
    },
    /// The element that is made, or the key.
    Made {
        comp: Comprehended,
        walk: Walk,
        done: Vals,
        outer: ScopeId,
    },
    /// The value of a key that is made.
    PairMade {
        comp: Comprehended,
        walk: Boxed<Walk>,
        done: Vals,
        outer: ScopeId,
        key: Val,
    },
    /// The elements of a thing that is unpacked to these targets.
    Unpacked {
        node: Expr,
    },
    /// A value went to the target before this one.
    Unpacking {
        node: Expr,
        next: u64,
        vals: Vals,
    },
    /// The index at which a value is stored.
    StoredAt {
        over: Val,
        val: Val,
        place: Place,
    },
}

/// Statements.
#[derive(Drop)]
pub enum StmtFrame {
    /// The statement before this one of a block.
    Block {
        block: Block,
        next: u64,
    },
    /// A value that is let go.
    LetGo,
    Return,
    Asserted {
        stmt: Stmt,
    },
    /// The message of an assertion that does not hold.
    Message {
        place: Place,
    },
    /// The name of this number, imported.
    Imported {
        stmt: Stmt,
        at: u64,
    },
    /// All names of a module.
    AllImported {
        place: Place,
    },
    /// The value of an assignment.
    Assigned {
        stmt: Stmt,
    },
    /// The value went to the target before this one.
    Assigning {
        stmt: Stmt,
        next: u64,
        val: Val,
    },
    /// The value of an annotated assignment.
    Annotated {
        stmt: Stmt,
    },
    /// That value was stored.
    Annotating {
        stmt: Stmt,
    },
    /// The annotation.
    Noted {
        stmt: Stmt,
    },
    /// The index of what an augmented assignment changes.
    AugmentIndex {
        stmt: Stmt,
        over: Val,
    },
    /// What an augmented assignment changes, as it was.
    AugmentOld {
        stmt: Stmt,
        changed: Changed,
    },
    /// Its right side.
    AugmentRight {
        stmt: Stmt,
        changed: Changed,
        old: Val,
    },
    /// What is to be stored.
    AugmentNew {
        stmt: Stmt,
        changed: Changed,
    },
    /// The test of the branch of this number.
    Branch {
        stmt: Stmt,
        at: u64,
    },
    WhileTest {
        stmt: Stmt,
        turns: u64,
    },
    WhileBody {
        stmt: Stmt,
        turns: u64,
    },
    ForSource {
        stmt: Stmt,
    },
    ForRow {
        stmt: Stmt,
    },
    ForBound {
        stmt: Stmt,
        walk: Walk,
    },
    ForBody {
        stmt: Stmt,
        walk: Walk,
    },
    With {
        stmt: Stmt,
    },
    Entered {
        stmt: Stmt,
        thing: Val,
    },
    WithBound {
        stmt: Stmt,
        thing: Val,
    },
    WithBody {
        thing: Val,
        place: Place,
    },
    /// What a `with` block came to, once the store was told.
    Left {
        got: Got,
    },
}

/// Definitions of functions and classes.
#[derive(Drop)]
pub enum DefFrame {
    /// The default of the parameter of this number, behind the defaults before it.
    Default {
        stmt: Stmt,
        at: u64,
        vals: Vals,
    },
    /// The annotation of the parameter of this number.
    Annotation {
        stmt: Stmt,
        at: u64,
        defaults: Vals,
    },
    /// The annotation of what a function gives.
    ResultType {
        stmt: Stmt,
        defaults: Vals,
    },
    /// The argument of this number of a class.
    ClassArgument {
        stmt: Stmt,
        at: u64,
        vals: Vals,
        keywords: NamedVals,
    },
    ClassSpread {
        stmt: Stmt,
        at: u64,
        vals: Vals,
        keywords: NamedVals,
    },
    ClassList {
        stmt: Stmt,
    },
    /// What a class body leaves.
    ClassBody {
        stmt: Stmt,
        base: Option<Val>,
        keywords: NamedVals,
        outer: Boxed<Here>,
    },
    /// The store's value for a class.
    ClassTold {
        stmt: Stmt,
    },
    /// The file's body.
    FileBody,
}

/// A node that waits for a part of it. It is moved at each step: what is large and rare in it is held apart.
#[derive(Drop)]
pub enum Frame {
    Expr(ExprFrame),
    Call(CallFrame),
    Walk(WalkFrame),
    Stmt(StmtFrame),
    Def(DefFrame),
}

/// What the machine does next.
#[derive(Drop)]
pub enum Now {
    /// Begins an expression.
    Begin(Expr, Purpose),
    /// Begins a statement.
    Run(Stmt),
    /// Goes on with what a node came to.
    Came(Got),
    /// Waits for an answer to a request, which is one of those of an act; so many functions may still be begun.
    Waits {
        request: Boxed<Request>,
        act: Act,
        rounds: u64,
    },
}

/// The frames, the innermost first.
#[derive(Drop)]
pub struct Frames {
    items: Vec<Frame>,
}

impl Model for Frames {
    ghost use Rattle.std.specs.Prelude.{List, reverse};
    ghost use Rattle.py_frames.specs.declared.frame.Frame.{Frame};
    ghost use Rattle.std.specs.Coded.{codes};
    ghost use Rattle.py_tree.specs.contracts.expr.Expr as expr;
    ghost use Rattle.py_tree.specs.contracts.stmt.Stmt as stmt;
    ghost use Rattle.py_tree.specs.contracts.stmt.Block as block;

    ghost Value = { List Frame };

    ghost coded = { Prim.hlevel (codes, expr.the_row.coded, stmt.the_row.coded, block.the_row.coded) };

    ghost view = { λ a. reverse a.items.items };
}

impl Frames {
    /// No frame, which takes no memory.
    pub fn new(alloc: Global) -> Frames
        ensures { result ≡ [] }
    {
        Frames {
            items: Vec::new(alloc),
        }
    }

    /// Whether there is none.
    pub fn is_empty(&self) -> bool
        ensures { result ≡ is_alone self.now }
    {
        self.items.is_empty()
    }

    /// Takes the innermost frame out.
    pub fn pop(&mut self) -> Option<Frame>
        ensures { MatchOption result ((self.old ≡ []) × (self.new ≡ [])) (λ f. self.old ≡ f ∷ self.new) }
    {
        self.items.pop()
    }

    /// Puts a frame within the others.
    pub fn push(&mut self, f: Frame) -> Result<(), NoMemory>
        ensures { OnOk result (self.new ≡ f ∷ self.old) }
    {
        match self.items.push(f) {
            Ok(()) => Ok(()),
            Err(left) => {
                drop(left);
                Err(NoMemory)
            }
        }
    }
}
