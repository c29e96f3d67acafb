// The parameters of an installation.

ghost use Rattle.std.specs.Prelude.{◌≡◌, ◌<◌, ◌≤◌, ◌^◌, [], ◌∷◌};
ghost use Rattle.layout_params.specs.Sizes.{flag_limit, value_limit};
ghost use Rattle.layout_params.specs.Parameters.{Parameters, AreLegal};
ghost use Rattle.layout_params.specs.ParameterSymbols.{symbol_values, symbol_of};

use crate::layout::Layout;
use crate::numbers::Numbers;
use crate::settings::Settings;
use crate::symbols::ParamSymbols;
use std::marker::Model;

/// The parameters of an installation, which are legal.
#[derive(Debug, Drop)]
pub struct Params {
    pub(crate) settings: Settings,
    pub(crate) input_unit: u64,
    pub(crate) output_unit: u64,
    pub(crate) punch_unit: u64,
}

impl Model for Params {
    ghost use Rattle.layout_params.specs.Parameters.{Parameters, AreLegal};

    ghost Value = { Parameters };

    ghost use Rattle.layout_params.specs.ParamsView.{parameters_of};

    ghost view = { parameters_of };

    ghost invariant = { λ p. AreLegal (parameters_of p) };
}

impl Params {
    /// The parameters that an image keeps.
    pub fn settings(&self) -> &Settings
        ensures value { result.now ≡ self.now.settings }
        ensures legal { AreLegal self.now }
    {
        &self.settings
    }

    /// The layout of a descriptor.
    pub fn numbers(&self) -> &Numbers
        ensures sizes { ⟦<Numbers as Layout>⟧.sizes result.now ≡ self.now.settings.sizes }
        ensures legal { AreLegal self.now }
        ensures descr { let s = self.now.settings.sizes in (16 ≤ s.descr) × (s.descr ≤ 64) }
    {
        self.settings.numbers()
    }

    /// The largest V field.
    pub fn vmax(&self) -> u64
        ensures is_limit { result ≡ value_limit self.now.settings.sizes }
        ensures below { result < 2 ^ 48 }
    {
        self.numbers().value_limit()
    }

    /// The largest F field.
    pub fn fmax(&self) -> u64
        ensures is_limit { result ≡ flag_limit self.now.settings.sizes }
        ensures below { result < 2 ^ 32 }
    {
        self.numbers().flag_limit()
    }

    /// The cells of the stack.
    pub fn stack_size(&self) -> u64
        ensures value { result ≡ self.now.settings.stack_size }
        ensures range { (16 ≤ result) × (result ≤ 65536) }
    {
        self.settings.stack_size()
    }

    /// The cells of dynamic storage.
    pub fn dynamic_size(&self) -> u64
        ensures value { result ≡ self.now.settings.dynamic_size }
        ensures range { result ≤ 900000 }
    {
        self.settings.dynamic_size()
    }

    /// The buckets of the symbol table.
    pub fn bucket_count(&self) -> u64
        ensures value { result ≡ self.now.settings.bucket_count }
        ensures range { (1 ≤ result) × (result ≤ 4096) }
    {
        self.settings.bucket_count()
    }

    /// The flags FNC, MARK, PTR, STTL and TTL.
    pub fn flags(&self) -> [u64; 5]
        ensures { let s = self.now.settings
            in result ≡ s.function_flag ∷ s.mark_flag ∷ s.pointer_flag ∷ s.string_title_flag ∷ s.title_flag ∷ [] }
    {
        self.settings.flags()
    }

    /// The date, as MM/DD/YY.
    pub fn date(&self) -> [u8; 8]
        ensures { result ≡ self.now.settings.date }
    {
        self.settings.date()
    }

    /// The value of a parameter symbol; none where the name isn't one.
    pub fn symbol(&self, name: &[u8]) -> Option<i64>
        ensures { result ≡ symbol_of self.now name.now }
    {
        self.symbols().value(name)
    }

    /// The parameter symbols.
    pub fn symbols(&self) -> ParamSymbols
        ensures { result ≡ symbol_values self.now }
    {
        ParamSymbols {
            values: self.symbol_values(),
        }
    }

    fn symbol_values(&self) -> [u64; 17]
        ensures values { result ≡ symbol_values self.now }
        ensures legal { AreLegal self.now }
    {
        let descr = self.numbers().descr();
        let [
            function_flag,
            mark_flag,
            pointer_flag,
            string_title_flag,
            title_flag,
        ] = self.flags();
        [
            descr,
            2 * descr,
            1,
            descr,
            256,
            self.vmax(),
            function_flag,
            mark_flag,
            pointer_flag,
            string_title_flag,
            title_flag,
            self.stack_size(),
            self.dynamic_size(),
            self.bucket_count(),
            self.input_unit,
            self.output_unit,
            self.punch_unit,
        ]
    }
}
