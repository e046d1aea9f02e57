// The calls for C, C++ and Rust programs from a window's lines to a group value and to a row of them, and from a
// row to its distortion; include/kifsang.h declares them. exported_answers says what they have in common.
#![tactic(auto)]

ghost use Rattle.std.specs.Prelude.{◌≡◌, length, IfOk, OnOk};
ghost use Rattle.rows.specs.Orders.{order_count};
ghost use Rattle.rows.specs.Setups.{setup_of};
ghost use Rattle.groups.specs.Group.{group_value, group_values};
ghost use Rattle.distortion.specs.Distortion.{distortion_of};
ghost use Rattle.exported_answers.specs.CallRefusals.{call_refusal_of};
ghost use Rattle.kind_numbers.specs.Kinds.{kind_with};
ghost use Rattle.exported_windows.specs.GroupCalls.{group_call_refusal, group_call_exit, row_call_refusal, row_call_exit, distortion_call_refusal, distortion_call_exit};

use exported_answers::{CallRefusal, hand_over, hand_over_row, lent_values};
use kind_numbers::{kind_numbered, kind_with_words};
use rows::{ORDER_COUNT, Row, Setup};

// The group value of a kind that is given by its number.
#[tactic(auto, using(exported_answers::proofs::Handed::own_fault_first, exported_answers::proofs::Handed::library_next), unfolding(crate::specs::GroupCalls::group_call_refusal, groups::specs::Group::group_answer))]
fn group_value(kind: u32, setup: Setup, order: u32, lines: &[u64]) -> Result<u64, CallRefusal>
    ensures refusal { call_refusal_of result ≡ group_call_refusal kind setup order lines.now }
    ensures accepted { IfOk result (λ value. value ≡ group_value (kind_with kind) setup order lines.now) }
{
    let kind = kind_numbered(kind)?;
    Ok(groups::group_value(kind, setup, order, lines)?)
}

// Writes the group value of a kind, a system, an edition and an order.
#[tactic(auto, using(exported_answers::proofs::Handed::handed_over), unfolding(crate::specs::GroupCalls::group_call_exit))]
pub fn kifsang_group_value(
    kind: u32,
    system: u32,
    edition: u32,
    order: u32,
    lines: &[u64],
    value: &mut u64,
) -> u32
    ensures value { result ≡ group_call_refusal kind (setup_of system edition) order lines.now }
    ensures value_after { value.new ≡ group_call_exit kind (setup_of system edition) order lines.now value.old }
{
    let setup = Setup { system, edition };
    hand_over(group_value(kind, setup, order, lines), value)
}

// The row of a kind that is given by its number, for a caller with some room for its values.
#[tactic(auto, using(exported_answers::proofs::Handed::own_fault_first, exported_answers::proofs::Handed::library_next), unfolding(crate::specs::GroupCalls::row_call_refusal, groups::specs::Group::group_row_answer))]
fn group_row(kind: u32, setup: Setup, lines: &[u64], values: &[u32]) -> Result<Row, CallRefusal>
    ensures refusal { call_refusal_of result ≡ row_call_refusal kind setup lines.now values.now }
    ensures accepted { IfOk result (λ row. row.values ≡ group_values (kind_with kind) setup lines.now) }
    ensures room { OnOk result (length values.now ≡ order_count) }
{
    let kind = kind_with_words(kind, values.len(), ORDER_COUNT)?;
    Ok(groups::group_row(kind, setup, lines)?)
}

// Writes the 40 values of a kind.
#[tactic(auto, using(exported_answers::proofs::Handed::refused_call_is_no_acceptance), unfolding(crate::specs::GroupCalls::row_call_exit))]
pub fn kifsang_row(kind: u32, system: u32, edition: u32, lines: &[u64], values: &mut [u32]) -> u32
    ensures value { result ≡ row_call_refusal kind (setup_of system edition) lines.now values.old }
    ensures values_after { values.new ≡ row_call_exit kind (setup_of system edition) lines.now values.old }
{
    let setup = Setup { system, edition };
    match group_row(kind, setup, lines, values) {
        Ok(row) => hand_over_row(Ok(&row.values), values),
        Err(refusal) => hand_over_row(Err(refusal), values),
    }
}

// The distortion of a row that is lent as words.
#[tactic(auto, using(exported_answers::proofs::Handed::own_fault_first, exported_answers::proofs::Handed::library_next), unfolding(crate::specs::GroupCalls::distortion_call_refusal, distortion::specs::Distortion::distortion_answer))]
fn distortion(values: &[u32]) -> Result<u64, CallRefusal>
    ensures refusal { call_refusal_of result ≡ distortion_call_refusal values.now }
    ensures accepted { IfOk result (λ distortion. distortion ≡ distortion_of values.now) }
{
    Ok(distortion::distortion(lent_values(values)?)?)
}

// Writes the distortion of a row, in parts per thousand.
#[tactic(auto, using(exported_answers::proofs::Handed::handed_over), unfolding(crate::specs::GroupCalls::distortion_call_exit))]
pub fn kifsang_distortion(values: &[u32], parts_per_thousand: &mut u64) -> u32
    ensures value { result ≡ distortion_call_refusal values.now }
    ensures parts_per_thousand_after { parts_per_thousand.new ≡ distortion_call_exit values.now parts_per_thousand.old }
{
    hand_over(distortion(values), parts_per_thousand)
}
