ghost use Rattle.ledgers.specs.Stocks.{Rules, Lawful, coin_rules, title_rules};
ghost use Rattle.ledgers.specs.LawfulKinds.{coins_lawful, titles_lawful};

// A kind of asset. `rules` says which numbers are assets, what each is worth, and how much a ledger takes.
pub trait Kind {
    ghost rules: { Rules };

    ghost lawful: { Lawful rules };
}

// Asset n is n coins, all of unit 0.
#[derive(Clone, Copy)]
pub struct Coins;

// Asset n is the title n, the only one of its unit.
#[derive(Clone, Copy)]
pub struct Titles;

impl Kind for Coins {
    ghost rules = { coin_rules };

    ghost lawful = { coins_lawful };
}

impl Kind for Titles {
    ghost rules = { title_rules };

    ghost lawful = { titles_lawful };
}
