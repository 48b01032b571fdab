// Where the rows of the outermost table of a chain go.
ghost use Rattle.std.specs.Prelude.{◌≡◌, List};
ghost use Rattle.field.specs.declared.sign.Sign.{Sign as RowSign};

use field::sign::Sign;

pub trait Sink {
    // What it becomes when it takes a row.
    ghost grown: { Self → List RowSign → Self };

    fn take(&mut self, row: &[Sign])
        ensures { self.new ≡ grown self.old row.now };
}
