//! Reads each number of a source and its project, by which it is known to be a cell.
ghost use Rattle.std.specs.Prelude.{◌≡◌, ◌∷◌, ◌++◌, true, map, flat_map, option_map, option_to_list};
ghost use Rattle.std.specs.List.{list_all};
ghost use Rattle.aseba_tree.specs.Shape.{decl_exprs, form_exprs, part_exprs, stmt_exprs, stmts_exprs, to_list};
ghost use Rattle.aseba_tree.specs.Value.{is_cell};
ghost use Rattle.aseba_tree.specs.View.{const_view, decl_view, expr_view, exprs_view, form_view, handler_view, head_view, part_view, source_view, stmt_form_view, stmt_view, stmts_view};
ghost use Rattle.aseba_expand.specs.Literals.{HasCellNumbers, form_has_cell_numbers, has_cell_numbers, have_cell_numbers};

use aseba_tree::{Const, Decl, Expr, ForHead, Form, Handler, Part, Source, Stmt, StmtForm};
use aseba_words::List;
use sqlite_items::Boxed;

/// Reads the numbers of a source: each of them is a cell.
pub fn read_numbers(source: &Source)
    ensures { HasCellNumbers (source_view source.now) }
{
    read_decls(source.vars.as_slice());
    read_stmts(&source.init);
    read_parts(source.parts.as_slice());
}

/// Reads the numbers of constants: each of them is a cell.
pub fn read_consts(consts: &[Const])
    ensures { list_all (λ c. is_cell c.value) (map const_view consts.now) ≡ true }
{
    for constant in consts {
        let _value = constant.value;
    }
}

fn read_decls(decls: &[Decl])
    ensures { list_all has_cell_numbers (flat_map decl_exprs (map decl_view decls.now)) ≡ true }
{
    for decl in decls {
        read_maybe(&decl.size);
        read_maybe(&decl.value);
    }
}

fn read_parts(parts: &[Handler])
    ensures { list_all has_cell_numbers (flat_map (λ h. stmts_exprs h.body) (map handler_view parts.now)) ≡ true }
{
    for part in parts {
        read_stmts(&part.body);
    }
}

// Statements

#[cycle(read_stmts)]
fn read_stmts(stmts: &List<Stmt>)
    ensures { list_all has_cell_numbers (stmts_exprs (stmts_view stmts.now)) ≡ true }
{
    for stmt in stmts.as_slice() {
        read_stmt(stmt);
    }
}

#[cycle(read_stmts)]
fn read_stmt(stmt: &Stmt)
    ensures { list_all has_cell_numbers (stmt_exprs (stmt_view stmt.now)) ≡ true }
{
    read_stmt_form(&stmt.form);
}

#[cycle(read_stmts)]
fn read_stmt_form(form: &StmtForm)
    ensures { list_all has_cell_numbers (form_exprs (stmt_form_view form.now)) ≡ true }
{
    match form {
        StmtForm::Set(target, value) | StmtForm::Change(target, _, value) => {
            read_part(&target.get().part);
            read_expr(value.get());
        }
        StmtForm::Step(target, _) => read_part(&target.get().part),
        StmtForm::If(test, then, other) => {
            read_expr(test.get());
            read_stmts(then);
            read_stmts(other);
        }
        StmtForm::When(test, body) | StmtForm::While(test, body) => {
            read_expr(test.get());
            read_stmts(body);
        }
        StmtForm::For(head, body) => {
            read_head(head.get());
            read_stmts(body);
        }
        StmtForm::Emit(_, argument) => read_boxed(argument),
        StmtForm::Call(_, arguments) => read_exprs(arguments),
        StmtForm::CallSub(_) | StmtForm::Return => {}
    }
}

fn read_part(part: &Part)
    ensures { list_all has_cell_numbers (part_exprs (part_view part.now)) ≡ true }
{
    match part {
        Part::All => {}
        Part::At(index) => read_expr(index.get()),
        Part::Span(first, last) => {
            read_expr(first.get());
            read_expr(last.get());
        }
    }
}

fn read_head(head: &ForHead)
    ensures { list_all has_cell_numbers ((head_view head.now).first ∷ (head_view head.now).last ∷ option_to_list (head_view head.now).step) ≡ true }
{
    read_expr(&head.first);
    read_expr(&head.last);
    read_maybe(&head.step);
}

// Expressions

fn read_maybe(expr: &Option<Expr>)
    ensures { list_all has_cell_numbers (option_to_list (option_map expr_view expr.now)) ≡ true }
{
    if let Some(expr) = expr {
        read_expr(expr);
    }
}

fn read_boxed(expr: &Option<Boxed<Expr>>)
    ensures { list_all has_cell_numbers (option_to_list (option_map expr_view expr.now)) ≡ true }
{
    if let Some(expr) = expr {
        read_expr(expr.get());
    }
}

#[cycle(read_expr)]
fn read_expr(expr: &Expr)
    ensures { has_cell_numbers (expr_view expr.now) ≡ true }
{
    read_form(&expr.form);
}

#[cycle(read_expr)]
fn read_exprs(exprs: &List<Expr>)
    ensures { have_cell_numbers (exprs_view exprs.now) ≡ true }
{
    for expr in exprs.as_slice() {
        read_expr(expr);
    }
}

#[cycle(read_expr)]
fn read_form(form: &Form)
    ensures { form_has_cell_numbers (form_view form.now) ≡ true }
{
    match form {
        Form::Number(value) => {
            let _value = *value;
        }
        Form::Whole(_) => {}
        Form::Index(_, operand) | Form::One(_, operand) => read_expr(operand.get()),
        Form::Range(_, first, last) | Form::Two(_, first, last) => {
            read_expr(first.get());
            read_expr(last.get());
        }
        Form::Items(items) => read_exprs(items),
    }
}
