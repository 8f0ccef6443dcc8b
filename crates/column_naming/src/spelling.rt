// Expressions as names of columns.
ghost use Rattle.std.specs.Prelude.{◌≡◌, ◌++◌, OnOk, map, option_map};
ghost use Rattle.std.specs.Char.{to_ascii_uppercase};
ghost use Rattle.std.specs.List.{find};
ghost use Rattle.std.specs.Str.{str_eq_ignore_ascii_case};
ghost use Rattle.grammar.specs.Trees.{Tree as tree};
ghost use Rattle.grammar.specs.Trees.{trees_of as listed};
ghost use Rattle.grammar.specs.Trees.{whens_of as branched};
ghost use Rattle.query_tree.specs.Views.{placed_of, tree_of, trees_of, whens_of};
ghost use Rattle.lp_values.specs.Printed.{printed};
ghost use Rattle.query_types.specs.Names.{all_of, branches_spelled, quoted, spelled, stamp_spelled, word_spelled};

use lp_values::{Bytes, Text, Value, print};
use query_tree::{Expr, ExprList, Placed, WhenList};
use query_types::{Alias, NamedKind, TableColumns, find_alias, is_counting};
use std::alloc::AllocError;

// The first column of this name, ASCII case ignored.
fn find_column<'a>(table: &'a TableColumns, name: &str) -> Option<&'a NamedKind>
    ensures { option_map (λ column. column.now) result ≡ find (λ column. str_eq_ignore_ascii_case column.name name.now) table.now.columns }
{
    table
        .columns
        .as_slice()
        .iter()
        .find(|column| column.name.as_str().eq_ignore_ascii_case(name))
}

// A word: as the table spells its column, as AS spells its alias, or as written.
fn spell_word(
    table: &TableColumns,
    aliases: &[Alias],
    name: &Text,
    to: &mut Bytes,
) -> Result<(), AllocError>
    ensures { OnOk result (to.new ≡ to.old ++ word_spelled table.now aliases.now name.now) }
{
    match find_column(table, name.as_str()) {
        Some(column) => spell(column.name.as_str(), to),
        None => match find_alias(aliases, name.as_str()) {
            Some(alias) => spell(alias.name.as_str(), to),
            None => spell(name.as_str(), to),
        },
    }
}

fn spell(text: &str, to: &mut Bytes) -> Result<(), AllocError>
    ensures { OnOk result (to.new ≡ to.old ++ text.now) }
{
    to.add(text.as_bytes())
}

// A text in quotes, its quotes doubled.
fn spell_quoted(text: &str, to: &mut Bytes) -> Result<(), AllocError>
    ensures { OnOk result (to.new ≡ to.old ++ quoted text.now) }
{
    to.push(b'\'')?;
    for byte in text.as_bytes() {
        if *byte == b'\'' {
            to.push(b'\'')?;
        }
        to.push(*byte)?;
    }
    to.push(b'\'')
}

// A name in capitals.
fn spell_capitals(name: &str, to: &mut Bytes) -> Result<(), AllocError>
    ensures { OnOk result (to.new ≡ to.old ++ map to_ascii_uppercase name.now) }
{
    for byte in name.as_bytes() {
        to.push(byte.to_ascii_uppercase())?;
    }
    Ok(())
}

// A TIMESTAMP.
fn spell_stamp(value: &Placed, pattern: &Placed, to: &mut Bytes) -> Result<(), AllocError>
    ensures { OnOk result (to.new ≡ to.old ++ stamp_spelled (placed_of value.now) (placed_of pattern.now)) }
{
    spell("TIMESTAMP(", to)?;
    spell_quoted(value.text.as_str(), to)?;
    spell(", ", to)?;
    spell_quoted(pattern.text.as_str(), to)?;
    spell(")", to)
}

// What stands before the argument of an aggregate.
fn all_of(name: &str) -> &'static str
    ensures { result.now ≡ all_of name.now }
{
    if is_counting(name) { "ALL " } else { "" }
}

// A call.
#[cycle(spelling)]
fn spell_call(
    table: &TableColumns,
    aliases: &[Alias],
    name: &Text,
    arguments: &ExprList,
    to: &mut Bytes,
) -> Result<(), AllocError>
    ensures { OnOk result (to.new ≡ to.old ++ spelled table.now aliases.now (tree.Call 0 name.now (listed (trees_of arguments.now)))) }
{
    spell_capitals(name.as_str(), to)?;
    spell("(", to)?;
    let mut separator = all_of(name.as_str());
    for argument in &arguments.items {
        spell(separator, to)?;
        spell_expression(table, aliases, argument, to)?;
        separator = ", ";
    }
    spell(")", to)
}

// The branches of a CASE.
#[cycle(spelling)]
fn spell_branches(
    table: &TableColumns,
    aliases: &[Alias],
    branches: &WhenList,
    to: &mut Bytes,
) -> Result<(), AllocError>
    ensures { OnOk result (to.new ≡ to.old ++ branches_spelled table.now aliases.now (branched (whens_of branches.now))) }
{
    for branch in &branches.items {
        spell(" WHEN ", to)?;
        spell_expression(table, aliases, &branch.test, to)?;
        spell(" THEN ", to)?;
        spell_expression(table, aliases, &branch.value, to)?;
    }
    Ok(())
}

/// Adds an expression as the name of its column.
#[cycle(spelling)]
pub(crate) fn spell_expression(
    table: &TableColumns,
    aliases: &[Alias],
    expr: &Expr,
    to: &mut Bytes,
) -> Result<(), AllocError>
    ensures { OnOk result (to.new ≡ to.old ++ spelled table.now aliases.now (tree_of expr.now)) }
{
    match expr {
        Expr::Integer { at: _, value } => print(&Value::Int(*value), to),
        Expr::Real { at: _, value } => print(&Value::Real(*value), to),
        Expr::Text { at: _, value } => spell_quoted(value.as_str(), to),
        Expr::Null { at: _ } => spell("NULL", to),
        Expr::Word { at: _, name } => spell_word(table, aliases, name, to),
        Expr::Timestamp {
            at: _,
            value,
            pattern,
        } => spell_stamp(value, pattern, to),
        Expr::Call {
            at: _,
            name,
            arguments,
        } => spell_call(table, aliases, name, arguments, to),
        Expr::CountAll { at: _ } => spell("COUNT(ALL *)", to),
        Expr::PropCountAll { at: _ } => spell("PROPCOUNT(*)", to),
        Expr::Case {
            at: _,
            subject,
            branches,
            otherwise,
        } => {
            spell("CASE ", to)?;
            spell_expression(table, aliases, subject, to)?;
            spell_branches(table, aliases, branches, to)?;
            match otherwise {
                None => spell(" END", to),
                Some(value) => {
                    spell(" ELSE ", to)?;
                    spell_expression(table, aliases, value, to)?;
                    spell(" END", to)
                }
            }
        }
    }
}
