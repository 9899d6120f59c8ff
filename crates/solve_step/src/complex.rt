// Complex numbers by value. Each operation is rounded once, in the order written.
ghost use Rattle.std.specs.Prelude.{◌≡◌};
ghost use Rattle.solve_step.specs.Complex.{sum_of, difference_of, product_of, quotient_of, conjugate_of, squared_of};

#[derive(Clone, Copy)]
pub struct Complex {
    pub re: f64,
    pub im: f64,
}

impl Complex {
    pub fn add(self, y: Complex) -> Complex
        ensures { result ≡ sum_of self y }
    {
        Complex {
            re: self.re + y.re,
            im: self.im + y.im,
        }
    }

    // A difference is the sum with the other sign: the same double.
    pub fn subtract(self, y: Complex) -> Complex
        ensures { result ≡ difference_of self y }
    {
        let n = Complex {
            re: -y.re,
            im: -y.im,
        };
        self.add(n)
    }

    pub fn multiply(self, y: Complex) -> Complex
        ensures { result ≡ product_of self y }
    {
        Complex {
            re: self.re * y.re - self.im * y.im,
            im: self.re * y.im + self.im * y.re,
        }
    }

    // Times the conjugate of y, each part by y's squared magnitude.
    pub fn quotient(self, y: Complex) -> Complex
        ensures { result ≡ quotient_of self y }
    {
        let d = y.re * y.re + y.im * y.im;
        Complex {
            re: (self.re * y.re + self.im * y.im) / d,
            im: (self.im * y.re - self.re * y.im) / d,
        }
    }

    pub fn conjugate(self) -> Complex
        ensures { result ≡ conjugate_of self }
    {
        Complex {
            re: self.re,
            im: -self.im,
        }
    }

    pub fn squared(self) -> f64
        ensures { result ≡ squared_of self }
    {
        self.re * self.re + self.im * self.im
    }
}
