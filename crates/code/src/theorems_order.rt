// What is proved of the law of orders as such, apart from any order.
ghost use Rattle.code.specs.Orders.{LawAsTested};

// The law in words of bits is the law that is tested.
pub fn law_in_words_of_bits()
    ensures { LawAsTested }
{}
