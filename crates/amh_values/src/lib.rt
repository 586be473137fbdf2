//! Shapes, values and views of Amaranth: what a program's operators, attributes, calls and indices of them give.
//!
//! `act` serves a request of the machine: its answer, and what the pool and the list of things have behind it, are those of the table of
//! acts (specs/Acts.antt), over the families of value_acts and layout_acts and the attributes, methods and indices of specs/Attributes.antt,
//! Calls.antt and Indexing.antt. A plan is judged before anything is put into the pool, so a refusal changes nothing. `Other` comes exactly for the
//! requests that are of the crate above. Samples of the definitions are worked out in proofs/.
#![tactic(auto)]

mod above;
mod acts;
mod answering;
mod attributes;
mod calls;
mod indexing;

pub use acts::{Acted, act};
pub use amh_things::comparing::{all_plain, counted, plain};
pub use amh_things::meant::{expr_meant, form_meant, shape_meant};
pub use amh_things::operand::Operand;
pub use amh_things::patterns::patterns_meant;
pub use amh_things::plan::{Ends, Plan, PlanStop};
pub use amh_things::queue::Queue;
pub use amh_things::thing::{LayoutThing, Member, Method, Reading, Thing, ThingName};
pub use amh_things::values::Values;
pub use amh_things::{integers_match, texts_match};
