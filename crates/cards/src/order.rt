// What it takes to say which of several things is first.
ghost use Rattle.std.specs.Prelude.{◌≡◌, Bool, true, false, ◌||◌};

// An order of some kind of item: which of two is ahead of the other, if either is.
pub trait Order {
    type Item;

    ghost ahead: { Self → Self.Item → Self.Item → Bool };

    fn ahead(&self, a: &Self::Item, b: &Self::Item) -> bool
        ensures { result ≡ ahead self.now a.now b.now };

    // Nothing is ahead of itself.
    ghost irreflexive: { (o : Self) (a : Self.Item) → ahead o a a ≡ false };

    // What is ahead of something ahead is ahead.
    ghost transitive: { (o : Self) (a b c : Self.Item) → ahead o a b ≡ true → ahead o b c ≡ true → ahead o a c ≡ true };

    // If a is ahead of b, any c is ahead of b or has a ahead of it.
    ghost weak: { (o : Self) (a b c : Self.Item) → ahead o a b ≡ true → (ahead o c b || ahead o a c) ≡ true };
}
