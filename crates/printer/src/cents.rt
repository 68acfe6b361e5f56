// Prices put into a lent output. A price may be negative, and then has its sign before it.
ghost use Rattle.std.specs.Prelude.{◌+◌, ◌^◌, ◌≤◌, ◌<◌};
ghost use Rattle.forms.specs.Digits.{signed_digits};
ghost use Rattle.forms.specs.Money.{decimal_text, money_text};
ghost use Rattle.printer.specs.Sign.{sign};
ghost use Rattle.printer.specs.Puts.{Puts};

use crate::Output;
use money::Cents;

impl Output<'_> {
    fn sign(&mut self, price: Cents)
        requires { self.old.at < 2 ^ 62 }
        ensures puts { Puts self.old (sign price.0) self.new }
        ensures upper_bound { self.new.at ≤ self.old.at + 1 }
    {
        if price.0 < 0 {
            self.word(b"-");
        }
    }

    pub fn cents(&mut self, price: Cents)
        requires { self.old.at < 2 ^ 62 }
        ensures puts { Puts self.old (signed_digits price.0) self.new }
        ensures upper_bound { self.new.at ≤ self.old.at + 21 }
    {
        self.sign(price);
        self.number(money::magnitude(price));
    }

    // With a point and two decimals.
    pub fn money(&mut self, price: Cents)
        requires { self.old.at < 2 ^ 60 }
        ensures puts { Puts self.old (money_text price.0) self.new }
        ensures upper_bound { self.new.at ≤ self.old.at + 124 }
    {
        self.sign(price);
        self.decimal(money::magnitude(price));
    }

    fn decimal(&mut self, n: u64)
        requires { self.old.at < 2 ^ 61 }
        ensures puts { Puts self.old (decimal_text n) self.new }
        ensures upper_bound { self.new.at ≤ self.old.at + 92 }
    {
        self.number(n / 100);
        self.word(b".");
        self.number(n / 10 % 10);
        self.number(n % 10);
    }
}
