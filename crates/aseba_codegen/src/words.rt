ghost use Rattle.std.specs.Prelude.{◌≡◌, ◌||◌, not, false, int_lt, negsuc, pos, flat_map, [], ◌∷◌, ◌++◌, IfOk, OnOk};
ghost use Rattle.aseba_codegen.specs.Words.{sixteen_bits, number_code, large_number_code, expr_code, condition_code, store_code, differs_from_zero, native_code};
ghost use Rattle.aseba_tree.specs.View.{core_expr_view, core_target_view, project_view};
ghost use Rattle.aseba_tree.specs.CoreNumbers.{param_count};
ghost use Rattle.aseba_vm.specs.Words.{large_number_word};

use aseba_tree::{CoreExpr, CoreTarget, Project};
use aseba_vm::instruction;
use aseba_words::{Binary, List, Mem};

/// Adds the code that pushes a number from a word of its own.
pub fn add_large(words: &mut List<u16>, bits: u16) -> Result<(), Mem>
    ensures { OnOk result (words.new ≡ words.old ++ large_number_word ∷ bits ∷ []) }
{
    words.add(instruction::large_number())?;
    words.add(bits)
}

/// Whether a number fits the low bits of a word.
fn is_small(value: i16) -> bool
    ensures { result ≡ not (int_lt value (negsuc 2047) || int_lt (pos 2047) value) }
{
    value >= -2048 && value <= 2047
}

/// A number in sixteen bits.
fn in_sixteen_bits(value: i16) -> u16
    ensures { result ≡ sixteen_bits value }
{
    if value < 0 {
        65535 - (-1 - value) as u16
    } else {
        value as u16
    }
}

/// Adds the code that pushes a number.
pub fn add_number(words: &mut List<u16>, value: i16) -> Result<(), Mem>
    ensures { OnOk result (words.new ≡ words.old ++ number_code value) }
{
    if is_small(value) {
        words.add(instruction::small_number(value))
    } else {
        add_large(words, in_sixteen_bits(value))
    }
}

/// Adds the code that pushes an expression's value.
pub fn add_expr(words: &mut List<u16>, expr: &CoreExpr) -> Result<(), Mem>
    ensures { OnOk result (words.new ≡ words.old ++ expr_code (core_expr_view expr.now)) }
{
    match expr {
        CoreExpr::Number(value) => add_number(words, *value),
        CoreExpr::Cell(address) => words.add(instruction::load(*address)),
        CoreExpr::Indirect(base, size, index) => {
            add_expr(words, index.get())?;
            words.add(instruction::load_indirect(*base))?;
            words.add(*size)
        }
        CoreExpr::One(op, operand) => {
            add_expr(words, operand.get())?;
            words.add(instruction::unary(*op))
        }
        CoreExpr::Two(op, left, right) => {
            add_expr(words, left.get())?;
            add_expr(words, right.get())?;
            words.add(instruction::binary(*op))
        }
    }
}

/// Adds a value and 0, which a branch compares. Answers the branch's operator.
fn add_value(words: &mut List<u16>, value: &CoreExpr) -> Result<Binary, Mem>
    ensures operator { IfOk result (λ op. op ≡ (differs_from_zero (core_expr_view value.now)).operator) }
    ensures words { OnOk result (words.new ≡ words.old ++ (differs_from_zero (core_expr_view value.now)).words) }
{
    add_expr(words, value)?;
    add_number(words, 0)?;
    Ok(Binary::Differ)
}

/// Adds the two values that a branch compares. Answers the branch's operator.
pub fn add_condition(words: &mut List<u16>, test: &CoreExpr) -> Result<Binary, Mem>
    ensures operator { IfOk result (λ op. op ≡ (condition_code (core_expr_view test.now)).operator) }
    ensures words { OnOk result (words.new ≡ words.old ++ (condition_code (core_expr_view test.now)).words) }
{
    match test {
        CoreExpr::Two(op, left, right) if op.is_of_one_cell() => {
            add_expr(words, left.get())?;
            add_expr(words, right.get())?;
            Ok(*op)
        }
        _ => add_value(words, test),
    }
}

/// Adds the code of a store.
pub fn add_store(words: &mut List<u16>, target: &CoreTarget, value: &CoreExpr) -> Result<(), Mem>
    ensures { OnOk result (words.new ≡ words.old ++ store_code (core_target_view target.now) (core_expr_view value.now)) }
{
    add_expr(words, value)?;
    match target {
        CoreTarget::Cell(address) => words.add(instruction::store(*address)),
        CoreTarget::Indirect(base, size, index) => {
            add_expr(words, index)?;
            words.add(instruction::store_indirect(*base))?;
            words.add(*size)
        }
    }
}

/// Adds the code that pushes addresses.
fn add_addresses(words: &mut List<u16>, addresses: &[u16]) -> Result<(), Mem>
    ensures { OnOk result (words.new ≡ words.old ++ flat_map (λ address. large_number_code (pos address)) addresses.now) }
{
    for address in addresses {
        add_large(words, *address)?;
    }
    Ok(())
}

/// Adds the code that pushes a length.
fn add_length(words: &mut List<u16>, length: u16) -> Result<(), Mem>
    ensures { OnOk result (words.new ≡ words.old ++ number_code (pos length)) }
{
    if length > 2047 {
        add_large(words, length)
    } else {
        words.add(instruction::small_number(length as i16))
    }
}

/// Adds the code that pushes lengths.
fn add_lengths(words: &mut List<u16>, lengths: &[u16]) -> Result<(), Mem>
    ensures { OnOk result (words.new ≡ words.old ++ flat_map (λ n. number_code (pos n)) lengths.now) }
{
    for length in lengths {
        add_length(words, *length)?;
    }
    Ok(())
}

/// How many parameters a native of the project has, none where there is no such native.
fn params_of(project: &Project, native: u16) -> usize
    ensures { result ≡ param_count (project_view project.now) native }
{
    match project.node.natives.as_slice().get(usize::from(native)) {
        Some(native) => native.params.as_slice().len(),
        None => 0,
    }
}

/// Adds the code that calls a native with an address for each parameter and the lengths behind them.
pub fn add_call(
    words: &mut List<u16>,
    project: &Project,
    native: u16,
    values: &[u16],
) -> Result<(), Mem>
    ensures { OnOk result (words.new ≡ words.old ++ native_code (project_view project.now) native values.now) }
{
    let count = params_of(project, native).min(values.len());
    let (addresses, lengths) = values.split_at(count);
    add_addresses(words, addresses)?;
    add_lengths(words, lengths)?;
    words.add(instruction::native(native))
}
