//! What the other crates speak of: tokens, the tree of a source, its element form, what a project
//! says of a node, and, in the definitions beside them, what a source means. Plain data, so that
//! contracts see each value as it stands.
#![tactic(auto)]

mod copies;
mod core_tree;
mod decl;
mod description;
mod expr;
mod inside;
mod keys;
mod laws;
mod placed;
mod pos;
mod project;
mod sound_laws;
mod source;
mod spell_laws;
mod stmt;
mod token;

pub use core_tree::{Core, CoreExpr, CoreForm, CorePart, CoreStmt, CoreTarget};
pub use decl::Decl;
pub use description::{Description, Local, Native, Param, Sized};
pub use expr::{Expr, Form};
pub use keys::{is_keyword, is_name};
pub use laws::{false_beats_leave_all, idle_stays_idle, kills_leave_nothing, stops_store_nothing};
pub use placed::Placed;
pub use pos::Pos;
pub use project::{Const, Project};
pub use sound_laws::{
    constant_has_value, sound_has_cells, sound_has_elements, sound_is_faultless, sound_is_laid_out,
};
pub use source::{Handler, Source};
pub use spell_laws::each_token_has_nest;
pub use stmt::{ForHead, Part, Stmt, StmtForm, Target};
pub use token::{Key, Sign, Token, TokenKind};
