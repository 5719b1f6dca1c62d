//! Rigs, each made in the body that uses it, since a function may not hand out boxes that it makes.

/// A rig of these four systems. Its caller imports `Rig` and `System`.
#[macro_export]
macro_rules! rig_of {
    ($alloc:expr; $ground:expr, $range:expr, $watch:expr, $census:expr) => {{
        let ground: Box<dyn System> = Box::new($alloc, $ground)?;
        let range: Box<dyn System> = Box::new($alloc, $range)?;
        let watch: Box<dyn System> = Box::new($alloc, $watch)?;
        let census: Box<dyn System> = Box::new($alloc, $census)?;
        Rig::new(ground, range, watch, census)
    }};
}

/// A rig of four new systems. Its caller imports these too.
#[macro_export]
macro_rules! rig {
    ($alloc:expr) => {
        $crate::rig_of!(
            $alloc;
            Ground::new($alloc), Range::looking($alloc), Watch::new($alloc), Census::new($alloc)
        )
    };
}
