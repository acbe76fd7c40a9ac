//! What sales come to.

ghost use Rattle.std.specs.Prelude.{◌≡◌, ◌*◌, sum_by};

/// How many units were sold, and the price of one.
#[derive(Clone, Copy)]
pub struct Sale {
    units: u32,
    price: u32,
}

impl Sale {
    /// The sale of a record, unless its last two texts are no numbers.
    pub fn of_record(record: &[String]) -> Option<Sale> {
        let [_, _, units, price] = record else {
            return None;
        };
        Some(Sale {
            units: units.as_str().parse().ok()?,
            price: price.as_str().parse().ok()?,
        })
    }

    pub fn amount(self) -> u64
        ensures { result ≡ self.units * self.price }
    {
        u64::from(self.units) * u64::from(self.price)
    }
}

/// The amount of all sales.
pub fn total(sales: &[Sale]) -> u128
    ensures { result ≡ sum_by (λ sale. sale.units * sale.price) sales.now }
{
    sales.iter().map(|sale| u128::from(sale.amount())).sum()
}
