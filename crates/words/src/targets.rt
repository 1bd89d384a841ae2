// Where control goes: the next address, a branch's target and a jump's.
ghost use Rattle.std.specs.Prelude.{◌≡◌};
ghost use Rattle.words.specs.Targets.{next_address, branch_target, jump_target, upper_and};

use crate::fields::sign_extend;
use terms::ByteAddress;

// The address of the word after the one at `address`.
pub fn next_address(address: ByteAddress) -> ByteAddress
    ensures { result.0 ≡ next_address address.0 }
{
    ByteAddress(address.0.wrapping_add(4))
}

// Where a taken branch at `address` goes.
pub fn branch_target(address: ByteAddress, field: u16) -> ByteAddress
    ensures { result.0 ≡ branch_target address.0 field }
{
    let next = next_address(address);
    let words = sign_extend(field);
    ByteAddress(next.0.wrapping_add(words % 1073741824 * 4))
}

// The upper four bits of `address`, the 26 bits of a j field, and two zeros.
pub fn upper_and(address: ByteAddress, field: u32) -> ByteAddress
    ensures { result.0 ≡ upper_and address.0 field }
{
    ByteAddress(address.0 / 268435456 * 268435456 + field % 67108864 * 4)
}

// Where a j at `address` goes.
pub fn jump_target(address: ByteAddress, field: u32) -> ByteAddress
    ensures { result.0 ≡ jump_target address.0 field }
{
    let next = next_address(address);
    upper_and(next, field)
}
