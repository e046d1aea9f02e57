// The calls of `exported_windows` for C.
ghost use Rattle.std.specs.Prelude.{◌≡◌};
ghost use Rattle.rows.specs.Setups.{setup_of};
ghost use Rattle.exported_windows.specs.GroupCalls.{group_call_refusal, group_call_exit, row_call_refusal, row_call_exit, distortion_call_refusal, distortion_call_exit};

// Writes the group value of a kind, a system, an edition and an order.
#[unsafe(no_mangle)]
pub extern "C" fn kifsang_group_value(
    kind: u32,
    system: u32,
    edition: u32,
    order: u32,
    lines: &[u64],
    value: &mut u64,
) -> u32
    ensures value { result ≡ group_call_refusal kind (setup_of system edition) order lines.now }
    ensures value_after { value.new ≡ group_call_exit kind (setup_of system edition) order lines.now value.old }
{
    exported_windows::kifsang_group_value(kind, system, edition, order, lines, value)
}

// Writes the 40 values of a kind.
#[unsafe(no_mangle)]
pub extern "C" fn kifsang_row(
    kind: u32,
    system: u32,
    edition: u32,
    lines: &[u64],
    values: &mut [u32],
) -> u32
    ensures value { result ≡ row_call_refusal kind (setup_of system edition) lines.now values.old }
    ensures values_after { values.new ≡ row_call_exit kind (setup_of system edition) lines.now values.old }
{
    exported_windows::kifsang_row(kind, system, edition, lines, values)
}

// Writes the distortion of a row, in parts per thousand.
#[unsafe(no_mangle)]
pub extern "C" fn kifsang_distortion(values: &[u32], parts_per_thousand: &mut u64) -> u32
    ensures value { result ≡ distortion_call_refusal values.now }
    ensures parts_per_thousand_after { parts_per_thousand.new ≡ distortion_call_exit values.now parts_per_thousand.old }
{
    exported_windows::kifsang_distortion(values, parts_per_thousand)
}
