//! The arguments of a command, by how many they are: what a command tests before it asks the store.

ghost use Rattle.std.specs.Prelude.{◌≡◌, ◌↔◌, ◌∷◌, [], IfNone, IfSome, IsTrue};
ghost use Rattle.lsm_resp.specs.Requests.{words_of};
ghost use Rattle.lsm_serve.specs.Arguments.{ArePairs, IsNotOne, IsNotTwo, IsNotThree};

/// The argument, if it is one.
pub(crate) fn one<'a>(args: &[&'a [u8]]) -> Option<&'a [u8]>
    ensures some { IfSome result (λ x. words_of args.now ≡ x.now ∷ []) }
    ensures none { IfNone result (IsNotOne (words_of args.now)) }
{
    if args.len() == 1 { Some(args[0]) } else { None }
}

/// The arguments, if they are two.
pub(crate) fn two<'a>(args: &[&'a [u8]]) -> Option<(&'a [u8], &'a [u8])>
    ensures some { IfSome result (λ x. words_of args.now ≡ x.0.now ∷ x.1.now ∷ []) }
    ensures none { IfNone result (IsNotTwo (words_of args.now)) }
{
    if args.len() == 2 {
        Some((args[0], args[1]))
    } else {
        None
    }
}

/// The arguments, if they are three.
pub(crate) fn three<'a>(args: &[&'a [u8]]) -> Option<(&'a [u8], &'a [u8], &'a [u8])>
    ensures some { IfSome result (λ x. words_of args.now ≡ x.0.now ∷ x.1.now ∷ x.2.now ∷ []) }
    ensures none { IfNone result (IsNotThree (words_of args.now)) }
{
    if args.len() == 3 {
        Some((args[0], args[1], args[2]))
    } else {
        None
    }
}

/// Whether they are one or more keys, each with a value behind it.
pub(crate) fn are_pairs(args: &[&[u8]]) -> bool
    ensures { IsTrue result ↔ ArePairs (words_of args.now) }
{
    !args.is_empty() && args.len() % 2 == 0
}
