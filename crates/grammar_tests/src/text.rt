#[cfg(test)]
mod tests {
    use grammar::{Mark, Part};
    use packed::fault::TableFault;
    use std::alloc::AllocError;

    #[test]
    fn printed(rt: HostRuntime) -> Result<(), AllocError> {
        let heap = rt.alloc();
        let parts = [Part::Symbol(3), Part::only(48), Part::Except(10, 13, 13)];
        let [symbol, range, except] = parts;
        let line = format!(in heap;
            "{symbol}; {range}; {except}; {} {}",
            Mark::Loose,
            Mark::Tight
        )?;
        assert!(rt;
            line.as_str() == "symbol 3; byte 48 to 48; byte except 10, 13, 13; loose tight"
        );
        let fault = format!(in heap; "{}", TableFault::RulePart(7))?;
        assert!(rt; fault.as_str() == "refused 54 rule=7");
        Ok(())
    }
}
