//! Whether a project can be written down.
ghost use Rattle.std.specs.Prelude.{◌≡◌, ◌↔◌, ◌++◌, IsTrue, All, List, ℕ, map};
ghost use Rattle.aseba_tree.specs.Inside.{IsFrom, InsideProject};
ghost use Rattle.aseba_describe.specs.Grammar.{ProjectText};
ghost use Rattle.aseba_text.specs.Names as names;
ghost use Rattle.aseba_text.specs.Numbers.{IsCell};
ghost use Rattle.aseba_describe.specs.Plain.{PlainSized, PlainLocal, PlainParam, PlainNative, PlainConst, PlainNode, PlainParts, IsPlain, HasOwnNames, cell_names, event_names, native_names};
ghost use Rattle.aseba_describe.specs.Spelling.{project_text};

use aseba_text::is_text;
use aseba_tree::{Const, Description, Local, Native, Param, Project, Sized, is_name};

/// Whether a project's names, texts, sizes and counts are such that it can be written down and read
/// again. It takes no memory: names are compared each with each, of which there are at most 768.
pub fn is_plain(project: &Project) -> bool
    ensures plain { IsTrue result ↔ IsPlain project.now }
    ensures written { IsTrue result ↔ ProjectText (project_text project.now) project.now }
{
    keeps_rules(project)
}

fn keeps_rules(project: &Project) -> bool
    ensures { IsTrue result ↔ IsPlain project.now }
{
    project.inside() && has_plain_parts(project) && has_own_names(project)
}

fn has_plain_parts(project: &Project) -> bool
    ensures { IsTrue result ↔ PlainParts project.now }
{
    project.id >= 1
        && is_node(&project.node)
        && are_sized(project.events.as_slice())
        && are_consts(project.consts.as_slice())
}

fn is_node(node: &Description) -> bool
    ensures { IsTrue result ↔ PlainNode node.now }
{
    is_name(node.name.as_bytes())
        && are_sized(node.variables.as_slice())
        && are_locals(node.locals.as_slice())
        && are_natives(node.natives.as_slice())
}

fn are_sized(items: &[Sized]) -> bool
    ensures { IsTrue result ↔ All PlainSized items.now }
{
    items.iter().all(|item| is_sized(item))
}

fn is_sized(item: &Sized) -> bool
    ensures { IsTrue result ↔ PlainSized item.now }
{
    is_name(item.name.as_bytes())
}

fn are_locals(locals: &[Local]) -> bool
    ensures { IsTrue result ↔ All PlainLocal locals.now }
{
    locals.iter().all(|local| is_local(local))
}

fn is_local(local: &Local) -> bool
    ensures { IsTrue result ↔ PlainLocal local.now }
{
    is_name(local.name.as_bytes()) && is_text(local.text.as_bytes())
}

fn are_natives(natives: &[Native]) -> bool
    ensures { IsTrue result ↔ All PlainNative natives.now }
{
    natives.iter().all(|native| is_native(native))
}

fn is_native(native: &Native) -> bool
    ensures { IsTrue result ↔ PlainNative native.now }
{
    is_name(native.name.as_bytes())
        && is_text(native.text.as_bytes())
        && are_params(native.params.as_slice())
}

fn are_params(params: &[Param]) -> bool
    ensures { IsTrue result ↔ All PlainParam params.now }
{
    params.iter().all(|param| is_param(param))
}

fn is_param(param: &Param) -> bool
    ensures { IsTrue result ↔ PlainParam param.now }
{
    let _size = param.size;
    is_name(param.name.as_bytes())
}

fn are_consts(consts: &[Const]) -> bool
    ensures { IsTrue result ↔ All PlainConst consts.now }
{
    consts.iter().all(|constant| is_const(constant))
}

fn is_const(constant: &Const) -> bool
    ensures { IsTrue result ↔ PlainConst constant.now }
{
    let _value = constant.value;
    is_name(constant.name.as_bytes())
}

/// A thing with a name.
trait Named {
    ghost name_of: { Self → List ℕ };

    fn name(&self) -> &[u8]
        ensures { result.now ≡ name_of self.now };
}

impl Named for Sized {
    ghost name_of = { λ s. s.name };

    fn name(&self) -> &[u8] {
        self.name.as_bytes()
    }
}

impl Named for Local {
    ghost name_of = { λ l. l.name };

    fn name(&self) -> &[u8] {
        self.name.as_bytes()
    }
}

impl Named for Native {
    ghost name_of = { λ n. n.name };

    fn name(&self) -> &[u8] {
        self.name.as_bytes()
    }
}

impl Named for Const {
    ghost name_of = { λ c. c.name };

    fn name(&self) -> &[u8] {
        self.name.as_bytes()
    }
}

fn has_own_names(project: &Project) -> bool
    ensures { IsTrue result ↔ HasOwnNames project.now }
{
    have_own_names(project.node.variables.as_slice(), project.consts.as_slice())
        && have_own_names(project.node.locals.as_slice(), project.events.as_slice())
        && are_distinct(project.node.natives.as_slice())
}

/// Whether no name stands twice in the two lists together.
#[tactic(auto, using(crate::proofs::Apart::distinct_together))]
fn have_own_names<A: Named, B: Named>(front: &[A], back: &[B]) -> bool
    ensures { result ≡ names.are_distinct (map A.name_of front.now ++ map B.name_of back.now) }
{
    are_distinct(front) && are_distinct(back) && are_apart(front, back)
}

fn are_distinct<T: Named>(items: &[T]) -> bool
    ensures { result ≡ names.are_distinct (map T.name_of items.now) }
{
    let mut rest = items;
    while let [first, behind @ ..] = rest {
        if stands_in(first.name(), behind) {
            return false;
        }
        rest = behind;
    }
    true
}

/// Whether no name of the one list stands in the other.
fn are_apart<A: Named, B: Named>(front: &[A], back: &[B]) -> bool
    ensures { result ≡ names.are_apart (map A.name_of front.now) (map B.name_of back.now) }
{
    let mut rest = front;
    while let [first, behind @ ..] = rest {
        if stands_in(first.name(), back) {
            return false;
        }
        rest = behind;
    }
    true
}

fn stands_in<T: Named>(name: &[u8], items: &[T]) -> bool
    ensures { result ≡ names.stands_in name.now (map T.name_of items.now) }
{
    let mut rest = items;
    while let [first, behind @ ..] = rest {
        if name == first.name() {
            return true;
        }
        rest = behind;
    }
    false
}
