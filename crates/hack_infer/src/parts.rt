// What a type is to matching.
ghost use Rattle.std.specs.Prelude.{◌≡◌};
ghost use Rattle.hack_infer.specs.Matching.{fun_param};

use hack_types::HackType;

/// The position of a function parameter.
pub(crate) fn fun_param(ty: &HackType) -> Option<u32>
    ensures { result ≡ fun_param ty.now }
{
    match ty {
        HackType::FunParam(position, _) => Some(*position),
        _ => None,
    }
}
