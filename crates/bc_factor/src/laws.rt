//! The law of the factored tree, over the definitions alone.
ghost use Rattle.bc_factor.specs.Laws.{ChosenIsMostShared, ChosenWhereShared, CommonIsInEach, StrippedHasOthers, NoneOfNone, PlainWithoutLevel, PlainWhereNoneShared, GroupThenOthers};

/// Which trees some products have, at most so many levels deep. No products have none. Where no level is left, or no literal
/// stands in two of the products, each product has its plain tree. Else take the literal that stands in most products, of equal
/// ones that with the least half-space, and then the positive one. The products with it make one tree: what they all have in
/// common, round the trees of what is left of them at one level less. The trees of the other products come behind it.
pub fn factored_law()
    ensures chosen { ChosenIsMostShared }
    ensures none_chosen { ChosenWhereShared }
    ensures in_common { CommonIsInEach }
    ensures left { StrippedHasOthers }
    ensures no_products { NoneOfNone }
    ensures no_level { PlainWithoutLevel }
    ensures none_shared { PlainWhereNoneShared }
    ensures shared { GroupThenOthers }
{}
