// The values of a site and of a spectrum.
ghost use Rattle.std.specs.Prelude.{[], ◌∷◌};
ghost use Rattle.answers.specs.Values.{site_values, number_values};

use crate::{Values, put_words};
use hazard::site::Site;

// F_S, F_1, S_DS, S_D1.
impl Values for Site {
    ghost values = { site_values };

    fn put(&self, out: &mut [u64]) {
        put_words(out, &[self.fs, self.f1, self.sds, self.sd1]);
    }
}

// A spectrum.
impl Values for u64 {
    ghost values = { number_values };

    fn put(&self, out: &mut [u64]) {
        put_words(out, &[*self]);
    }
}
