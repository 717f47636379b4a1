use due_key::Class;
use log_entries::Entry;
use std::alloc::{AllocError, Global};

/// The number of colours: those of Okabe and Ito, which can be distinguished with any colour vision.
pub(crate) const COLOURS: usize = 7;

/// The colours in CSS: the classes `k0` to `k6`, and `k7` for requests without a known class.
pub(crate) const COLOUR_STYLE: &str = "\
.k0{fill:#0072b2;stroke:#0072b2}.k1{fill:#e69f00;stroke:#e69f00}.k2{fill:#009e73;stroke:#009e73}\
.k3{fill:#cc79a7;stroke:#cc79a7}.k4{fill:#56b4e9;stroke:#56b4e9}.k5{fill:#d55e00;stroke:#d55e00}\
.k6{fill:#b8a800;stroke:#b8a800}.k7{fill:#777;stroke:#777}
";

/// Says whether text on a colour has to be white.
pub(crate) fn is_dark(colour: usize) -> bool {
    matches!(colour, 0 | 2 | 5 | 7)
}

/// The classes of a log, the lowest first. The colours repeat where there are more classes.
#[derive(Drop)]
pub(crate) struct Palette {
    classes: Vec<Class>,
}

impl Palette {
    pub(crate) fn new(alloc: Global, entries: &[Entry]) -> Result<Palette, AllocError> {
        let mut classes: Vec<Class> = Vec::new(alloc);
        for entry in entries {
            if let Entry::Arrive(_, arrival) = *entry {
                classes.push(arrival.class)?;
            }
        }
        classes.sort()?;
        classes.dedup();
        Ok(Palette { classes })
    }

    pub(crate) fn classes(&self) -> &[Class] {
        self.classes.as_slice()
    }

    /// Returns the colour of a class.
    pub(crate) fn colour(&self, class: Option<Class>) -> usize {
        let Some(class) = class else {
            return COLOURS;
        };
        match self.classes.binary_search(&class) {
            Ok(number) => number % COLOURS,
            Err(_) => COLOURS,
        }
    }
}
