// The rates of the tariff, and the figures that it has for the premises on each.
ghost use Rattle.std.specs.Prelude.{◌≡◌};
ghost use Rattle.measures.specs.Rate.{class_kwh, load_factor, name_of};

// A rate. NR-S is for non-residential premises under 20 kW, and NR-L for those from 20 kW on.
#[derive(Clone, Copy, PartialEq, Eq, Debug)]
pub enum Rate {
    E12,
    Et1,
    Et2,
    EtSp,
    Ect1R,
    Ect2,
    NrS,
    NrL,
    Other,
}

// The tables below have an entry for each rate, in the order of the rates.
const CLASS_KWH: [Option<u32>; 9] = [
    Some(25),
    Some(47),
    Some(47),
    Some(47),
    Some(75),
    Some(75),
    Some(45),
    Some(1_156),
    None,
];

const LOAD_FACTORS: [Option<u32>; 9] = [
    None,
    None,
    None,
    None,
    Some(42),
    Some(39),
    Some(50),
    Some(50),
    None,
];

const NAMES: [&'static str; 9] = [
    "E-12", "ET-1", "ET-2", "ET-SP", "ECT-1R", "ECT-2", "NR-S", "NR-L", "OTHER",
];

impl Rate {
    // The kWh a day of the rate's class of premises.
    pub fn class_kwh_a_day(self) -> Option<u32>
        ensures answer { result ≡ class_kwh self }
    {
        CLASS_KWH[self as usize]
    }

    // The load factor of the rate's class of premises, in percent.
    pub fn load_factor(self) -> Option<u32>
        ensures answer { result ≡ load_factor self }
    {
        LOAD_FACTORS[self as usize]
    }

    // The name that the tariff has for the rate.
    pub fn name(self) -> &'static str
        ensures answer { result.now ≡ name_of self }
    {
        NAMES[self as usize]
    }
}

#[cfg(test)]
mod tests {
    use super::*;

    #[test]
    fn class_averages(rt: HostRuntime) {
        assert_eq!(rt; Rate::E12.class_kwh_a_day(), Some(25));
        assert_eq!(rt; Rate::Et1.class_kwh_a_day(), Some(47));
        assert_eq!(rt; Rate::Et2.class_kwh_a_day(), Some(47));
        assert_eq!(rt; Rate::EtSp.class_kwh_a_day(), Some(47));
        assert_eq!(rt; Rate::Ect1R.class_kwh_a_day(), Some(75));
        assert_eq!(rt; Rate::Ect2.class_kwh_a_day(), Some(75));
        assert_eq!(rt; Rate::NrS.class_kwh_a_day(), Some(45));
        assert_eq!(rt; Rate::NrL.class_kwh_a_day(), Some(1_156));
        assert_eq!(rt; Rate::Other.class_kwh_a_day(), None);
    }

    #[test]
    fn load_factors(rt: HostRuntime) {
        assert_eq!(rt; Rate::Et2.load_factor(), None);
        assert_eq!(rt; Rate::Ect1R.load_factor(), Some(42));
        assert_eq!(rt; Rate::Ect2.load_factor(), Some(39));
        assert_eq!(rt; Rate::NrS.load_factor(), Some(50));
        assert_eq!(rt; Rate::NrL.load_factor(), Some(50));
        assert_eq!(rt; Rate::Other.load_factor(), None);
    }

    #[test]
    fn names(rt: HostRuntime) {
        assert_eq!(rt; Rate::E12.name(), "E-12");
        assert_eq!(rt; Rate::EtSp.name(), "ET-SP");
        assert_eq!(rt; Rate::Ect1R.name(), "ECT-1R");
        assert_eq!(rt; Rate::Other.name(), "OTHER");
    }
}
