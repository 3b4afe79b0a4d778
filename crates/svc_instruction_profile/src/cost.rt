// What is charged to an instruction.

ghost use Rattle.std.specs.Prelude.{◌≡◌};
ghost use Rattle.svc_instruction_profile.specs.Rows.{costs_more, no_cost, number_of, one_of, told_of};
ghost use Rattle.svc_instruction_profile.specs.Room.{HasRoom};

/// What is charged to an instruction at which an entry asks.
#[derive(Clone, Copy)]
pub(crate) enum Expense {
    /// It asked, if only for an access that traps.
    Asked,
    /// It loaded.
    Load,
    /// It stored.
    Store,
    /// It output a word.
    Output,
    /// Its store found that a later task had read the word too early.
    Found,
    /// The task for which it loaded was squashed.
    Lost,
    /// It was the first to read a word too early.
    Suffered,
}

/// What the charges of an instruction come to.
#[derive(Clone, Copy)]
pub(crate) struct Cost {
    /// Its loads.
    pub(crate) loads: u64,
    /// Its stores.
    pub(crate) stores: u64,
    /// The words that it output.
    pub(crate) outputs: u64,
    /// Its loads whose task was squashed.
    pub(crate) lost: u64,
    /// Its stores that found a violation.
    pub(crate) found: u64,
    /// The violations for which it was the first to read the word.
    pub(crate) suffered: u64,
}

// The kinds of charges, by number.
fn number_of(expense: Expense) -> u8
    ensures { result ≡ number_of expense }
{
    match expense {
        Expense::Asked => 0,
        Expense::Load => 1,
        Expense::Store => 2,
        Expense::Output => 3,
        Expense::Found => 4,
        Expense::Lost => 5,
        Expense::Suffered => 6,
    }
}

// One where both are the same.
fn one_of(one: Expense, other: Expense) -> u64
    ensures { result ≡ one_of one other }
{
    u64::from(number_of(one) == number_of(other))
}

impl Cost {
    /// Nothing is charged yet.
    pub(crate) fn none() -> Cost
        ensures { result ≡ no_cost }
    {
        Cost {
            loads: 0,
            stores: 0,
            outputs: 0,
            lost: 0,
            found: 0,
            suffered: 0,
        }
    }

    /// With one charge more.
    pub(crate) fn and(self, expense: Expense) -> Cost
        requires { HasRoom expense self }
        ensures { result ≡ costs_more expense self }
    {
        Cost {
            loads: self.loads + one_of(Expense::Load, expense),
            stores: self.stores + one_of(Expense::Store, expense),
            outputs: self.outputs + one_of(Expense::Output, expense),
            lost: self.lost + one_of(Expense::Lost, expense),
            found: self.found + one_of(Expense::Found, expense),
            suffered: self.suffered + one_of(Expense::Suffered, expense),
        }
    }

    /// What is reported of it.
    pub(crate) fn told(&self) -> [u64; 6]
        ensures { result ≡ told_of self.now }
    {
        [
            self.loads,
            self.stores,
            self.outputs,
            self.lost,
            self.found,
            self.suffered,
        ]
    }
}
